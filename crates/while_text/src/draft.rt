//! The part of a while program that has been built up to a token.

ghost use Rattle.std.specs.Prelude.{◌≡◌, ◌∷◌, ◌++◌, [], if◌then◌else◌, None, IfOk, OnOk};
ghost use Rattle.while_tree.specs.while_model.Statements.{Assign, Choose};
ghost use Rattle.while_tree.specs.Views.{Plain, stmt_of};
ghost use Rattle.poly_terms.specs.Views.{term_of};
ghost use Rattle.while_text.specs.Drafts as drafts;
ghost use Rattle.while_text.specs.Courses.{is_last};
ghost use Rattle.while_text.specs.Faults.{fault_of_last, fault_of_value, fault_in_atom};
ghost use Rattle.while_text.specs.declared.block.Opener.TheVariants as opener;
ghost use Rattle.while_text.specs.Views.{block_of, course_of, draft_of};

use crate::block::{Block, Opener, assignment};
use crate::course::Course;
use crate::forms::{forms_fault, value_fault};
use crate::grammar_state::{ended, no_expression, read_token};
use crate::kind::Kind;
use crate::names::{bytes_of, number_of};
use crate::phase::Phase;
use crate::piece::{Piece, Sort};
use crate::sorts::{is_relation, opens_block};
use expr_reader::Expression;
use its_model::{Atom, Name};
use poly_terms::{Expr, Memory};
use std::alloc::Global;
use std::mem::replace;
use while_tree::Stmt;

/// The part of a program that has been built up to a token.
#[derive(Drop)]
pub struct Draft {
    /// The inputs.
    pub names: Vec<Name>,
    /// The variable of the assignment that is being read, and whether its value is `?`.
    pub variable: u32,
    pub chosen: bool,
    /// The expression that is being read, and the last one that ended a value.
    pub grammar_state: Expression,
    pub value: Expr,
    /// The left side of the atom, and the atoms of the test.
    pub left: Expr,
    pub test: Vec<Atom>,
    /// The kind of the next block, and the open blocks, the innermost last.
    pub opener: Opener,
    pub blocks: Vec<Block>,
    /// The statements of the innermost block so far.
    pub body: Vec<Stmt>,
    /// The positions of all statements.
    pub positions: Vec<u64>,
}

impl Draft {
    /// The state before the first token.
    pub fn new(alloc: Global) -> Draft
        ensures { draft_of result ≡ drafts.begun_draft }
    {
        Draft {
            names: Vec::new(alloc),
            variable: 0,
            chosen: false,
            grammar_state: no_expression(alloc),
            value: Expr::Num(0),
            left: Expr::Num(0),
            test: Vec::new(alloc),
            opener: Opener::Second,
            blocks: Vec::new(alloc),
            body: Vec::new(alloc),
            positions: Vec::new(alloc),
        }
    }

    /// Reads a token of a text, and returns the fault of the value or atom that ends with it, if it has one.
    ///
    /// # Errors
    ///
    /// `Memory` if an allocation fails.
    pub fn take(
        &mut self,
        alloc: Global,
        text: &[u8],
        piece: Piece,
        course: Course,
    ) -> Result<Option<Kind>, Memory>
        ensures made { OnOk result (draft_of self.new
            ≡ drafts.draft_after text.now piece (course_of course) (draft_of self.old)) }
        ensures fault { IfOk result (λ kind. kind ≡ fault_of_last text.now piece (course_of course) (draft_of self.old)) }
    {
        if opens_block(piece.sort) {
            self.open_block(alloc)?;
            return Ok(None);
        }
        match course.phase {
            Phase::Inputs => self.take_input(alloc, text, piece)?,
            Phase::Statements => self.take_statement(alloc, text, piece)?,
            Phase::Assignment => self.take_variable_sign(alloc, piece.sort),
            Phase::Value => return self.take_value(alloc, text, piece, course),
            Phase::Test => self.take_test(alloc, piece.sort),
            Phase::Left => self.take_left(alloc, text, piece)?,
            Phase::Right => return self.take_right(alloc, text, piece, course),
        }
        Ok(None)
    }

    // Reads a token among the inputs.
    fn take_input(&mut self, alloc: Global, text: &[u8], piece: Piece) -> Result<(), Memory>
        ensures { OnOk result (draft_of self.new
            ≡ drafts.made_of_input text.now piece piece.sort (draft_of self.old)) }
    {
        match piece.sort {
            Sort::Name => {
                let bytes = bytes_of(text, piece).to_vec(alloc)?;
                self.names.push(Name { bytes })?;
            }
            _ => {}
        }
        Ok(())
    }

    // Reads a token outside of the parts of statements.
    fn take_statement(&mut self, alloc: Global, text: &[u8], piece: Piece) -> Result<(), Memory>
        ensures { OnOk result (draft_of self.new
            ≡ drafts.made_of_statement text.now piece piece.sort (draft_of self.old)) }
    {
        match piece.sort {
            Sort::Name => {
                self.positions.push(piece.at)?;
                self.variable = number_of(&self.names, bytes_of(text, piece));
            }
            Sort::Skip => {
                self.positions.push(piece.at)?;
                self.body.push(Stmt::Skip)?;
            }
            Sort::While => self.begin_test(alloc, Opener::Loop, piece.at)?,
            Sort::If => self.begin_test(alloc, Opener::First, piece.at)?,
            Sort::BlockClose => self.close_block(alloc)?,
            _ => {}
        }
        Ok(())
    }

    // Begins a statement with a test.
    fn begin_test(&mut self, alloc: Global, opener: Opener, at: u64) -> Result<(), Memory>
        ensures { OnOk result (draft_of self.new ≡ drafts.begins_test opener at (draft_of self.old)) }
    {
        self.positions.push(at)?;
        self.test = Vec::new(alloc);
        self.opener = opener;
        Ok(())
    }

    // Reads a token after the variable of an assignment.
    fn take_variable_sign(&mut self, alloc: Global, sort: Sort)
        ensures { draft_of self.new ≡ drafts.made_of_variable sort (draft_of self.old) }
    {
        match sort {
            Sort::Becomes => {
                self.grammar_state = no_expression(alloc);
                self.chosen = false;
            }
            _ => {}
        }
    }

    // Reads a token of an expression.
    fn read_token(&mut self, alloc: Global, text: &[u8], piece: Piece) -> Result<(), Memory>
        ensures { OnOk result (draft_of self.new
            ≡ record (draft_of self.old) { grammar_state = drafts.with_token text.now piece (draft_of self.old) }) }
    {
        let variable = number_of(&self.names, bytes_of(text, piece));
        read_token(alloc, &mut self.grammar_state, variable, piece.sort)
    }

    // Reads a token in the value of an assignment, and returns the fault of a value that ends with it, if it has one.
    fn take_value(
        &mut self,
        alloc: Global,
        text: &[u8],
        piece: Piece,
        course: Course,
    ) -> Result<Option<Kind>, Memory>
        ensures made { OnOk result (draft_of self.new
            ≡ drafts.made_of_value text.now piece (course_of course) piece.sort (draft_of self.old)) }
        ensures fault { IfOk result (λ kind. kind
            ≡ fault_of_value text.now piece (course_of course) (draft_of self.old)) }
    {
        match piece.sort {
            Sort::Question => {
                self.chosen = true;
                Ok(None)
            }
            Sort::Semicolon => {
                self.end_assignment()?;
                Ok(None)
            }
            _ => self.take_value_token(alloc, text, piece, course),
        }
    }

    // Reads a token of the value of an assignment.
    fn take_value_token(
        &mut self,
        alloc: Global,
        text: &[u8],
        piece: Piece,
        course: Course,
    ) -> Result<Option<Kind>, Memory>
        ensures made { OnOk result (draft_of self.new
            ≡ drafts.made_of_value_token text.now piece (course_of course) (draft_of self.old)) }
        ensures fault { IfOk result (λ kind. kind
            ≡ fault_of_value text.now piece (course_of course) (draft_of self.old)) }
    {
        self.read_token(alloc, text, piece)?;
        if !course.is_last(piece) {
            return Ok(None);
        }
        let value = ended(alloc, &mut self.grammar_state)?;
        let kind = value_fault(alloc, &value)?;
        self.value = value;
        Ok(kind)
    }

    // Ends an assignment.
    fn end_assignment(&mut self) -> Result<(), Memory>
        ensures { OnOk result (draft_of self.new ≡ drafts.assignment_ends (draft_of self.old)) }
    {
        let value = replace(&mut self.value, Expr::Num(0));
        let statement = assignment(self.chosen, self.variable, value);
        self.body.push(statement)?;
        Ok(())
    }

    // Reads a token in a test outside of its atoms.
    fn take_test(&mut self, alloc: Global, sort: Sort)
        ensures { draft_of self.new ≡ drafts.made_of_test sort (draft_of self.old) }
    {
        match sort {
            Sort::Open | Sort::Joint => self.grammar_state = no_expression(alloc),
            _ => {}
        }
    }

    // Reads a token in an atom up to its relation.
    fn take_left(&mut self, alloc: Global, text: &[u8], piece: Piece) -> Result<(), Memory>
        ensures { OnOk result (draft_of self.new
            ≡ drafts.made_of_left text.now piece piece.sort (draft_of self.old)) }
    {
        match piece.sort {
            Sort::Truth => {
                self.test.push(Atom::Always)?;
                Ok(())
            }
            _ => self.take_left_side(alloc, text, piece),
        }
    }

    // Reads a token of the left side of a comparison, or its relation.
    fn take_left_side(&mut self, alloc: Global, text: &[u8], piece: Piece) -> Result<(), Memory>
        ensures { OnOk result (draft_of self.new
            ≡ drafts.made_of_left_side text.now piece (draft_of self.old)) }
    {
        if is_relation(piece.sort) {
            self.left = ended(alloc, &mut self.grammar_state)?;
            Ok(())
        } else {
            self.read_token(alloc, text, piece)
        }
    }

    // Reads a token on the right side of an atom, and returns the fault of an atom that ends with it, if it has one.
    fn take_right(
        &mut self,
        alloc: Global,
        text: &[u8],
        piece: Piece,
        course: Course,
    ) -> Result<Option<Kind>, Memory>
        ensures made { OnOk result (draft_of self.new
            ≡ drafts.made_of_right text.now piece (course_of course) (draft_of self.old)) }
        ensures fault { IfOk result (λ kind. kind
            ≡ fault_in_atom text.now piece (course_of course) (draft_of self.old)) }
    {
        self.read_token(alloc, text, piece)?;
        if !course.is_last(piece) {
            return Ok(None);
        }
        let right = ended(alloc, &mut self.grammar_state)?;
        let left = replace(&mut self.left, Expr::Num(0));
        let kind = forms_fault(alloc, &left, course.relation, &right)?;
        let rel = course.relation;
        self.test.push(Atom::Compare { left, rel, right })?;
        Ok(kind)
    }

    // Opens a block.
    fn open_block(&mut self, alloc: Global) -> Result<(), Memory>
        ensures { OnOk result (draft_of self.new
            ≡ drafts.block_opens (draft_of self.old).opener (draft_of self.old)) }
    {
        match self.opener {
            Opener::Loop => self.open_loop(alloc),
            Opener::First => self.open_first(alloc),
            Opener::Second => self.open_second(alloc),
        }
    }

    // Makes a block the innermost one.
    fn push_block(&mut self, alloc: Global, block: Block) -> Result<(), Memory>
        ensures { OnOk result (draft_of self.new ≡ drafts.with_block (block_of block) (draft_of self.old)) }
    {
        self.blocks.push(block)?;
        self.body = Vec::new(alloc);
        self.test = Vec::new(alloc);
        self.opener = Opener::Second;
        Ok(())
    }

    // Opens the block of a loop.
    fn open_loop(&mut self, alloc: Global) -> Result<(), Memory>
        ensures { OnOk result (draft_of self.new ≡ drafts.block_opens opener.Loop (draft_of self.old)) }
    {
        let test = replace(&mut self.test, Vec::new(alloc));
        let before = replace(&mut self.body, Vec::new(alloc));
        self.push_block(alloc, Block::InLoop(test, before))
    }

    // Opens the first block of a branch.
    fn open_first(&mut self, alloc: Global) -> Result<(), Memory>
        ensures { OnOk result (draft_of self.new ≡ drafts.block_opens opener.First (draft_of self.old)) }
    {
        let test = replace(&mut self.test, Vec::new(alloc));
        let before = replace(&mut self.body, Vec::new(alloc));
        self.push_block(alloc, Block::InFirst(test, before))
    }

    // Opens the second block of a branch that was read without it.
    fn open_second(&mut self, alloc: Global) -> Result<(), Memory>
        ensures { OnOk result (draft_of self.new ≡ drafts.block_opens opener.Second (draft_of self.old)) }
    {
        if let Some(last) = self.body.pop() {
            self.reopen(alloc, last)?;
        }
        Ok(())
    }

    // Takes the last statement: a branch is opened again for its second block; any other statement is put back.
    fn reopen(&mut self, alloc: Global, last: Stmt) -> Result<(), Memory>
        ensures { OnOk result (draft_of self.new ≡ drafts.reopened (stmt_of last) (draft_of self.old)) }
    {
        match last {
            Stmt::If(test, first, _other) => {
                let before = replace(&mut self.body, Vec::new(alloc));
                self.push_block(alloc, Block::InSecond(test, first, before))?;
            }
            Stmt::While(test, block) => self.body.push(Stmt::While(test, block))?,
            Stmt::Assign(x, e) => self.body.push(Stmt::Assign(x, e))?,
            Stmt::Any(x) => self.body.push(Stmt::Any(x))?,
            Stmt::Skip => self.body.push(Stmt::Skip)?,
        }
        Ok(())
    }

    // Closes the innermost block, if one is open.
    fn close_block(&mut self, alloc: Global) -> Result<(), Memory>
        ensures { OnOk result (draft_of self.new
            ≡ drafts.block_closes (drafts.last_of (draft_of self.old).blocks) (draft_of self.old)) }
    {
        if let Some(block) = self.blocks.pop() {
            self.close(alloc, block)?;
        }
        Ok(())
    }

    // Appends the statement of a block that has closed to those before it.
    fn close(&mut self, alloc: Global, block: Block) -> Result<(), Memory>
        ensures { OnOk result (draft_of self.new ≡ drafts.closed (block_of block) (draft_of self.old)) }
    {
        match block {
            Block::InLoop(test, before) => {
                let block = replace(&mut self.body, before);
                self.body.push(Stmt::While(test, block))?;
            }
            Block::InFirst(test, before) => {
                let block = replace(&mut self.body, before);
                let none = Vec::new(alloc);
                self.body.push(Stmt::If(test, block, none))?;
            }
            Block::InSecond(test, first, before) => {
                let block = replace(&mut self.body, before);
                self.body.push(Stmt::If(test, first, block))?;
            }
        }
        Ok(())
    }
}
