//! The parser state of a while program without what has been built: what can come next, by the tokens before it.

ghost use Rattle.std.specs.Prelude.{◌≡◌};
ghost use Rattle.its_model.specs.Views.{relation_of as relation_view};
ghost use Rattle.while_text.specs.Courses as course;
ghost use Rattle.while_text.specs.Views.{course_of};

use crate::phase::Phase;
use crate::piece::{Follower, Piece, Sort};
use crate::sorts::{ends_operand, is_caret, is_relation, opens_block, relation_of};
use its_model::Rel;

/// The part of the text that is being read; for the expression that is being read, the number of tokens, the number of
/// open brackets, and whether the last token was `^`; the relation of the atom; the number of rules so far; and the
/// position of the last statement.
/// position of the last statement.
#[derive(Clone, Copy, Debug, PartialEq, Eq)]
pub struct Course {
    pub phase: Phase,
    pub tokens: u64,
    pub depth: u64,
    pub raised: bool,
    pub relation: Rel,
    pub rules: u64,
    pub at: u64,
}

// Whether the follower of an operand continues its expression; after an exponent no `^` does.
fn goes_on(raised: bool, follower: Follower) -> bool
    ensures { result ≡ course.goes_on raised follower }
{
    match follower {
        Follower::Operator => true,
        Follower::Caret => !raised,
        Follower::Other => false,
    }
}

// The number of open brackets of an expression after a token.
fn depth_after(sort: Sort, depth: u64) -> u64
    ensures { result ≡ course.depth_after sort depth }
{
    match sort {
        Sort::Open => depth.saturating_add(1),
        Sort::Close => depth.saturating_sub(1),
        _ => depth,
    }
}

/// The number of negations of a comparison.
pub fn negation_count(relation: Rel) -> u64
    ensures { result ≡ course.negation_count (relation_view relation) }
{
    match relation {
        Rel::Ge | Rel::Gt | Rel::Le | Rel::Lt => 1,
        Rel::Eq => 2,
    }
}

/// Whether a test is being read.
pub fn is_in_test(phase: Phase) -> bool
    ensures { result ≡ course.is_in_test phase }
{
    matches!(phase, Phase::Test | Phase::Left | Phase::Right)
}

/// Whether an expression is being read.
pub fn is_in_expression(phase: Phase) -> bool
    ensures { result ≡ course.is_in_expression phase }
{
    matches!(phase, Phase::Value | Phase::Left | Phase::Right)
}

impl Course {
    /// The state before the first token.
    pub fn new() -> Course
        ensures { course_of result ≡ course.begun_course }
    {
        Course {
            phase: Phase::Inputs,
            tokens: 0,
            depth: 0,
            raised: false,
            relation: Rel::Eq,
            rules: 0,
            at: 0,
        }
    }

    /// Whether an expression ends with the token.
    pub fn is_last(&self, piece: Piece) -> bool
        ensures { result ≡ course.is_last piece (course_of self.now) }
    {
        ends_operand(piece.sort)
            && depth_after(piece.sort, self.depth) == 0
            && !goes_on(self.raised, piece.follower)
    }

    /// The state after a token.
    pub fn after(self, piece: Piece) -> Course
        ensures { course_of result ≡ course.course_after piece (course_of self) }
    {
        if opens_block(piece.sort) {
            return self.with_phase(Phase::Statements);
        }
        match self.phase {
            Phase::Inputs => self.after_input(piece.sort),
            Phase::Statements => self.after_statement(piece.sort, piece.at),
            Phase::Assignment => self.after_variable(piece.sort),
            Phase::Value => self.after_value(piece.sort),
            Phase::Test => self.after_test(piece.sort),
            Phase::Left => self.after_left(piece.sort),
            Phase::Right => self.after_right(piece),
        }
    }

    // The state with another part of the text being read.
    fn with_phase(self, phase: Phase) -> Course
        ensures { course_of result ≡ record (course_of self) { phase = phase } }
    {
        let mut course = self;
        course.phase = phase;
        course
    }

    // The state before the first token of an expression.
    fn expression_begins(self, phase: Phase) -> Course
        ensures { course_of result ≡ course.expression_begins phase (course_of self) }
    {
        let mut course = self;
        course.phase = phase;
        course.tokens = 0;
        course.depth = 0;
        course.raised = false;
        course
    }

    // The state after a token of an expression.
    fn with_token(self, sort: Sort) -> Course
        ensures { course_of result ≡ course.with_token sort (course_of self) }
    {
        let mut course = self;
        course.tokens = course.tokens.saturating_add(1);
        course.depth = depth_after(sort, course.depth);
        course.raised = is_caret(sort);
        course
    }

    // The state after the first token of a statement, which adds its first rule.
    fn statement_begins(self, phase: Phase, at: u64) -> Course
        ensures { course_of result ≡ course.statement_begins phase at (course_of self) }
    {
        let mut course = self;
        course.phase = phase;
        course.rules = course.rules.saturating_add(1);
        course.at = at;
        course
    }

    // The state after a token among the inputs.
    fn after_input(self, sort: Sort) -> Course
        ensures { course_of result ≡ course.after_input sort (course_of self) }
    {
        match sort {
            Sort::Semicolon => self.with_phase(Phase::Statements),
            _ => self,
        }
    }

    // The state after a token outside of the parts of statements.
    fn after_statement(self, sort: Sort, at: u64) -> Course
        ensures { course_of result ≡ course.after_statement sort at (course_of self) }
    {
        match sort {
            Sort::Name => self.statement_begins(Phase::Assignment, at),
            Sort::Skip => self.statement_begins(Phase::Statements, at),
            Sort::While | Sort::If => self.statement_begins(Phase::Test, at),
            _ => self,
        }
    }

    // The state after a token that follows the variable of an assignment.
    fn after_variable(self, sort: Sort) -> Course
        ensures { course_of result ≡ course.after_variable sort (course_of self) }
    {
        match sort {
            Sort::Becomes => self.expression_begins(Phase::Value),
            _ => self,
        }
    }

    // The state after a token in the value of an assignment.
    fn after_value(self, sort: Sort) -> Course
        ensures { course_of result ≡ course.after_value sort (course_of self) }
    {
        match sort {
            Sort::Semicolon => self.with_phase(Phase::Statements),
            Sort::Question => self,
            _ => self.with_token(sort),
        }
    }

    // The state after a token in a test outside of its atoms.
    fn after_test(self, sort: Sort) -> Course
        ensures { course_of result ≡ course.after_test sort (course_of self) }
    {
        match sort {
            Sort::Open | Sort::Joint => self.expression_begins(Phase::Left),
            _ => self,
        }
    }

    // The state after a token in an atom up to its relation.
    fn after_left(self, sort: Sort) -> Course
        ensures { course_of result ≡ course.after_left sort (course_of self) }
    {
        match sort {
            Sort::Truth => self.with_phase(Phase::Test),
            _ => self.after_left_side(sort),
        }
    }

    // The state after a token of the left side of a comparison, or after its relation.
    fn after_left_side(self, sort: Sort) -> Course
        ensures { course_of result ≡ course.after_left_side sort (course_of self) }
    {
        if is_relation(sort) {
            let mut course = self.expression_begins(Phase::Right);
            course.relation = relation_of(sort, course.relation);
            course
        } else {
            self.with_token(sort)
        }
    }

    // The state after a token on the right side of an atom.
    fn after_right(self, piece: Piece) -> Course
        ensures { course_of result ≡ course.after_right piece (course_of self) }
    {
        let mut course = self.with_token(piece.sort);
        if self.is_last(piece) {
            course.phase = Phase::Test;
            course.rules = course.rules.saturating_add(negation_count(course.relation));
        }
        course
    }
}
