//! The state of reading a section: what has been made of the pieces so far.

ghost use Rattle.std.specs.Prelude.{◌≡◌, [], IfOk, OnOk};
ghost use Rattle.refined_programs.specs.Views.{annotated_cases, affine_form};
ghost use Rattle.refined_programs.specs.Annotated.{If};
ghost use Rattle.its_model.specs.Views.{program_of};
ghost use Rattle.section_text.specs.Drafts as drafts;
ghost use Rattle.section_text.specs.Views.{draft_of, open_of};

use crate::action::{ACTIONS, Action, Role};
use crate::names::{CopyNames, bytes_of, in_32, in_64, position_in_32, signed, symbol_position};
use crate::piece::{Piece, Sign, Sort};
use its_model::{Name, Program};
use model::Memory;
use refined_programs::{Affine, Branch, Cases, Multipliers, SymbolCopy};
use std::alloc::Global;
use std::mem::replace;

/// A test whose cases are being read.
#[derive(Drop)]
pub enum OpenTest {
    /// The cases in which the form is at least 0 are being read.
    InYes(Affine),
    /// The other cases are being read, after the first ones.
    InNo(Affine, Cases),
}

/// The parts of a section that have been made of the pieces so far.
#[derive(Drop)]
pub struct Draft<'a> {
    /// The role of the next piece.
    pub role: Role,
    /// Whether a `-` was read last.
    pub negative: bool,
    /// The form that is being read: its last number, and the numbers before it.
    pub coefs: Vec<i64>,
    pub constant: Option<i64>,
    /// The multipliers that are being read, and the lists before them.
    pub numbers: Vec<u64>,
    pub lists: Vec<Multipliers>,
    /// The copy that is being read.
    pub name: Vec<u8>,
    pub over: u32,
    pub facts: Vec<Affine>,
    /// The names of all copies, and those that were read.
    pub names: CopyNames<'a>,
    pub copies: Vec<SymbolCopy>,
    /// The branch that is being read, and the copy that its last path leads to.
    pub source: u32,
    pub rule: u32,
    pub target: u32,
    /// The tests whose cases are being read, the innermost last, and the cases that were read last.
    pub tests: Vec<OpenTest>,
    pub cases: Cases,
    /// The branches that were read.
    pub branches: Vec<Branch>,
}

// Cases that lead nowhere, without multipliers.
fn no_cases(alloc: Global) -> Cases
    ensures { annotated_cases result ≡ drafts.no_cases }
{
    Cases::Never {
        by: Multipliers {
            numbers: Vec::new(alloc),
        },
    }
}

// Cases by whether a form is at least 0.
fn if_cases(alloc: Global, test: Affine, yes: Cases, no: Cases) -> Result<Cases, Memory>
    ensures { IfOk result (λ cases. annotated_cases cases
        ≡ If (affine_form test) (annotated_cases yes) (annotated_cases no)) }
{
    let yes = Box::new(alloc, yes)?;
    let no = Box::new(alloc, no)?;
    Ok(Cases::If { test, yes, no })
}

/// The number of a piece, 0 if it is no number.
pub fn number_in(sort: Sort) -> u128
    ensures { result ≡ drafts.number_in sort }
{
    match sort {
        Sort::Number(number) => number,
        _ => 0,
    }
}

// The constant of a form: its last number, 0 if there is none.
fn constant_in(constant: Option<i64>) -> i64
    ensures { result ≡ drafts.constant_in constant }
{
    match constant {
        Some(number) => number,
        None => 0,
    }
}

impl<'a> Draft<'a> {
    /// The state in which nothing has been read.
    pub fn new(alloc: Global) -> Draft<'a>
        ensures { draft_of result ≡ drafts.begun }
    {
        Draft {
            role: Role::Plain,
            negative: false,
            coefs: Vec::new(alloc),
            constant: None,
            numbers: Vec::new(alloc),
            lists: Vec::new(alloc),
            name: Vec::new(alloc),
            over: 0,
            facts: Vec::new(alloc),
            names: CopyNames::new(alloc),
            copies: Vec::new(alloc),
            source: 0,
            rule: 0,
            target: 0,
            tests: Vec::new(alloc),
            cases: no_cases(alloc),
            branches: Vec::new(alloc),
        }
    }

    /// Reads a piece of a text, in the role that the mark before it gives it.
    ///
    /// # Errors
    ///
    /// `Memory` where an allocation fails.
    pub fn take(
        &mut self,
        alloc: Global,
        program: &Program,
        text: &'a [u8],
        piece: Piece,
    ) -> Result<(), Memory>
        ensures { OnOk result (draft_of self.new
            ≡ drafts.read_in (draft_of self.old).role (program_of program.now) text.now piece (draft_of self.old)) }
    {
        match self.role {
            Role::Integer => self.take_integer(piece.sort),
            Role::NewName => self.take_new_name(alloc, text, piece),
            Role::Symbol => {
                self.take_symbol(program, text, piece);
                Ok(())
            }
            Role::Source => {
                self.take_source(text, piece);
                Ok(())
            }
            Role::Target => {
                self.take_target(text, piece);
                Ok(())
            }
            Role::Rule => {
                self.take_rule(piece.sort);
                Ok(())
            }
            Role::Multiplier => self.take_multiplier(piece.sort),
            Role::Plain | Role::CopyWord | Role::BranchWord | Role::CaseWord => {
                self.role = Role::Plain;
                Ok(())
            }
        }
    }

    // Takes a piece that is the name of a symbol.
    fn take_symbol(&mut self, program: &Program, text: &[u8], piece: Piece)
        ensures { draft_of self.new
            ≡ drafts.symbol_read (program_of program.now) text.now piece (draft_of self.old) }
    {
        self.over = position_in_32(symbol_position(&program.symbols, bytes_of(text, piece)));
        self.role = Role::Plain;
    }

    // Takes a piece that is the name of the copy that a branch leaves.
    fn take_source(&mut self, text: &[u8], piece: Piece)
        ensures { draft_of self.new ≡ drafts.source_read text.now piece (draft_of self.old) }
    {
        self.source = position_in_32(self.names.position_or_count(bytes_of(text, piece)));
        self.role = Role::Plain;
    }

    // Takes a piece that is the name of the copy that a path leads to.
    fn take_target(&mut self, text: &[u8], piece: Piece)
        ensures { draft_of self.new ≡ drafts.target_read text.now piece (draft_of self.old) }
    {
        self.target = position_in_32(self.names.position_or_count(bytes_of(text, piece)));
        self.role = Role::Plain;
    }

    // Takes a piece that is the number of a rule.
    fn take_rule(&mut self, sort: Sort)
        ensures { draft_of self.new ≡ drafts.rule_read sort (draft_of self.old) }
    {
        self.rule = in_32(number_in(sort));
        self.role = Role::Plain;
    }

    // Takes a piece that is a multiplier.
    fn take_multiplier(&mut self, sort: Sort) -> Result<(), Memory>
        ensures { OnOk result (draft_of self.new ≡ drafts.multiplier_read sort (draft_of self.old)) }
    {
        self.numbers.push(in_64(number_in(sort)))?;
        self.role = Role::Plain;
        Ok(())
    }

    // Takes a piece that is the name of a new copy.
    fn take_new_name(&mut self, alloc: Global, text: &'a [u8], piece: Piece) -> Result<(), Memory>
        ensures { OnOk result (draft_of self.new ≡ drafts.with_new_name text.now piece (draft_of self.old)) }
    {
        let bytes = bytes_of(text, piece);
        self.name = bytes.to_vec(alloc)?;
        self.names.insert(bytes)?;
        self.role = Role::Plain;
        Ok(())
    }

    // Takes a piece that is a number of a form, or its sign.
    fn take_integer(&mut self, sort: Sort) -> Result<(), Memory>
        ensures { OnOk result (draft_of self.new ≡ drafts.read_integer sort (draft_of self.old)) }
    {
        match sort {
            Sort::Sign(Sign::Minus) => {
                self.negative = true;
                Ok(())
            }
            _ => self.push_integer(signed(self.negative, number_in(sort))),
        }
    }

    // Adds a number to the form.
    fn push_integer(&mut self, number: i64) -> Result<(), Memory>
        ensures { OnOk result (draft_of self.new ≡ drafts.with_integer number (draft_of self.old)) }
    {
        self.push_constant()?;
        self.constant = Some(number);
        self.negative = false;
        self.role = Role::Plain;
        Ok(())
    }

    // Makes the last number of the form a coefficient, as another number follows.
    fn push_constant(&mut self) -> Result<(), Memory>
        ensures { OnOk result (draft_of self.new ≡ drafts.constant_kept (draft_of self.old)) }
    {
        match self.constant {
            Some(before) => {
                self.coefs.push(before)?;
                Ok(())
            }
            None => Ok(()),
        }
    }

    /// Does the action of a mark.
    ///
    /// # Errors
    ///
    /// `Memory` where an allocation fails.
    pub fn done(&mut self, alloc: Global, mark: u32) -> Result<(), Memory>
        ensures { OnOk result (draft_of self.new ≡ drafts.done mark (draft_of self.old)) }
    {
        match ACTIONS.get(mark as usize) {
            Some(action) => self.act(alloc, *action),
            None => Ok(()),
        }
    }

    // Does an action.
    fn act(&mut self, alloc: Global, action: Action) -> Result<(), Memory>
        ensures { OnOk result (draft_of self.new ≡ drafts.acted action (draft_of self.old)) }
    {
        match action {
            Action::Comes(role) => {
                self.role = role;
                Ok(())
            }
            Action::FactRead => self.end_fact(alloc),
            Action::CopyRead => self.end_copy(alloc),
            Action::ListRead => self.end_list(alloc),
            Action::ToRead => self.end_to(alloc),
            Action::NeverRead => self.end_never(alloc),
            Action::TestRead => self.begin_test(alloc),
            Action::YesRead => self.end_yes(alloc),
            Action::NoRead => self.end_no(alloc),
            Action::BranchRead => self.end_branch(alloc),
        }
    }

    // Ends the form and returns it; the next form begins.
    fn end_form(&mut self, alloc: Global) -> Affine
        ensures form { affine_form result ≡ drafts.form_in (draft_of self.old) }
        ensures left { draft_of self.new ≡ drafts.without_form (draft_of self.old) }
    {
        let coefs = replace(&mut self.coefs, Vec::new(alloc));
        let constant = constant_in(self.constant);
        self.constant = None;
        Affine { coefs, constant }
    }

    // Ends the list of multipliers and returns it; the next list begins.
    fn end_numbers(&mut self, alloc: Global) -> Multipliers
        ensures numbers { result.numbers.items ≡ (draft_of self.old).numbers }
        ensures left { draft_of self.new ≡ record (draft_of self.old) { numbers = [] } }
    {
        let numbers = replace(&mut self.numbers, Vec::new(alloc));
        Multipliers { numbers }
    }

    // Adds the form that was read as a fact of the copy.
    fn end_fact(&mut self, alloc: Global) -> Result<(), Memory>
        ensures { OnOk result (draft_of self.new ≡ drafts.fact_read (draft_of self.old)) }
    {
        let form = self.end_form(alloc);
        self.facts.push(form)?;
        Ok(())
    }

    // Ends the line of a copy.
    fn end_copy(&mut self, alloc: Global) -> Result<(), Memory>
        ensures { OnOk result (draft_of self.new ≡ drafts.copy_read (draft_of self.old)) }
    {
        let bytes = replace(&mut self.name, Vec::new(alloc));
        let facts = replace(&mut self.facts, Vec::new(alloc));
        let name = Name { bytes };
        let over = self.over;
        self.copies.push(SymbolCopy { name, over, facts })?;
        Ok(())
    }

    // Ends a list of multipliers for a fact.
    fn end_list(&mut self, alloc: Global) -> Result<(), Memory>
        ensures { OnOk result (draft_of self.new ≡ drafts.list_read (draft_of self.old)) }
    {
        let by = self.end_numbers(alloc);
        self.lists.push(by)?;
        Ok(())
    }

    // Ends cases that lead to a copy.
    fn end_to(&mut self, alloc: Global) -> Result<(), Memory>
        ensures { OnOk result (draft_of self.new ≡ drafts.to_read (draft_of self.old)) }
    {
        let by = replace(&mut self.lists, Vec::new(alloc));
        let copy = self.target;
        self.cases = Cases::To { copy, by };
        Ok(())
    }

    // Ends cases that lead nowhere.
    fn end_never(&mut self, alloc: Global) -> Result<(), Memory>
        ensures { OnOk result (draft_of self.new ≡ drafts.never_read (draft_of self.old)) }
    {
        let by = self.end_numbers(alloc);
        self.cases = Cases::Never { by };
        Ok(())
    }

    // Begins the cases of a test.
    fn begin_test(&mut self, alloc: Global) -> Result<(), Memory>
        ensures { OnOk result (draft_of self.new ≡ drafts.test_read (draft_of self.old)) }
    {
        let form = self.end_form(alloc);
        self.tests.push(OpenTest::InYes(form))?;
        Ok(())
    }

    // Takes the cases that were read.
    fn end_cases(&mut self, alloc: Global) -> Cases
        ensures cases { annotated_cases result ≡ (draft_of self.old).cases }
        ensures left { draft_of self.new ≡ record (draft_of self.old) { cases = drafts.no_cases } }
    {
        replace(&mut self.cases, no_cases(alloc))
    }

    // Ends the first cases of the innermost test.
    fn end_yes(&mut self, alloc: Global) -> Result<(), Memory>
        ensures { OnOk result (draft_of self.new
            ≡ drafts.yes_read (drafts.last_of (draft_of self.old).tests) (draft_of self.old)) }
    {
        if let Some(test) = self.tests.pop() {
            self.begin_no(alloc, test)?;
        }
        Ok(())
    }

    // Begins the other cases of a test, after its first ones.
    fn begin_no(&mut self, alloc: Global, test: OpenTest) -> Result<(), Memory>
        ensures { OnOk result (draft_of self.new ≡ drafts.no_begun (open_of test) (draft_of self.old)) }
    {
        match test {
            OpenTest::InYes(form) => {
                let yes = self.end_cases(alloc);
                self.tests.push(OpenTest::InNo(form, yes))?;
            }
            OpenTest::InNo(_form, _yes) => {}
        }
        Ok(())
    }

    // Ends the other cases of the innermost test.
    fn end_no(&mut self, alloc: Global) -> Result<(), Memory>
        ensures { OnOk result (draft_of self.new
            ≡ drafts.no_read (drafts.last_of (draft_of self.old).tests) (draft_of self.old)) }
    {
        if let Some(test) = self.tests.pop() {
            self.end_test(alloc, test)?;
        }
        Ok(())
    }

    // Ends a test.
    fn end_test(&mut self, alloc: Global, test: OpenTest) -> Result<(), Memory>
        ensures { OnOk result (draft_of self.new ≡ drafts.test_ended (open_of test) (draft_of self.old)) }
    {
        match test {
            OpenTest::InYes(_form) => {}
            OpenTest::InNo(form, first) => {
                let no = self.end_cases(alloc);
                self.cases = if_cases(alloc, form, first, no)?;
            }
        }
        Ok(())
    }

    // Ends the line of a branch.
    fn end_branch(&mut self, alloc: Global) -> Result<(), Memory>
        ensures { OnOk result (draft_of self.new ≡ drafts.branch_read (draft_of self.old)) }
    {
        let cases = self.end_cases(alloc);
        let source = self.source;
        let rule = self.rule;
        self.branches.push(Branch {
            source,
            rule,
            cases,
        })?;
        Ok(())
    }
}
