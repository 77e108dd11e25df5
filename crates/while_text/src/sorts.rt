//! Properties of the sorts of tokens.

ghost use Rattle.std.specs.Prelude.{◌≡◌};
ghost use Rattle.its_model.specs.Views.{relation_of as relation_view};
ghost use Rattle.while_text.specs.Courses as course;
ghost use Rattle.while_text.specs.Faults as faults;
ghost use Rattle.while_text.specs.Grammar.{class_of_sort};

use crate::piece::Sort;
use its_model::Rel;
use model::COEFFICIENT_LIMIT;

/// The class of a sort of tokens.
pub fn class_of(sort: Sort) -> u32
    ensures { result ≡ class_of_sort sort }
{
    match sort {
        Sort::Input => 0,
        Sort::Skip => 1,
        Sort::While => 2,
        Sort::If => 3,
        Sort::Else => 4,
        Sort::Truth => 5,
        Sort::Name => 6,
        Sort::Number(_) => 7,
        Sort::Becomes => 8,
        Sort::Question => 9,
        Sort::Semicolon => 10,
        Sort::Comma => 11,
        Sort::Open => 12,
        Sort::Close => 13,
        Sort::BlockOpen => 14,
        Sort::BlockClose => 15,
        Sort::Joint => 16,
        Sort::AtLeast | Sort::MoreThan | Sort::AtMost | Sort::LessThan | Sort::Equal => 17,
        Sort::Plus => 18,
        Sort::Minus => 19,
        Sort::Times => 20,
        Sort::Caret => 21,
        Sort::Strange | Sort::Wrong => 22,
    }
}

/// Whether a token of this sort is `^`.
pub fn is_caret(sort: Sort) -> bool
    ensures { result ≡ course.is_caret sort }
{
    matches!(sort, Sort::Caret)
}

/// Whether an expression can end with a token of this sort.
pub fn ends_operand(sort: Sort) -> bool
    ensures { result ≡ course.ends_operand sort }
{
    matches!(sort, Sort::Name | Sort::Number(_) | Sort::Close)
}

/// Whether a token of this sort is a relation.
pub fn is_relation(sort: Sort) -> bool
    ensures { result ≡ course.is_relation sort }
{
    matches!(
        sort,
        Sort::AtLeast | Sort::MoreThan | Sort::AtMost | Sort::LessThan | Sort::Equal
    )
}

/// The relation of a token of this sort, or another one if it is none.
pub fn relation_of(sort: Sort, other: Rel) -> Rel
    ensures { relation_view result ≡ course.relation_of sort (relation_view other) }
{
    match sort {
        Sort::AtLeast => Rel::Ge,
        Sort::MoreThan => Rel::Gt,
        Sort::AtMost => Rel::Le,
        Sort::LessThan => Rel::Lt,
        Sort::Equal => Rel::Eq,
        _ => other,
    }
}

/// Whether a token of this sort opens a block.
pub fn opens_block(sort: Sort) -> bool
    ensures { result ≡ course.opens_block sort }
{
    matches!(sort, Sort::BlockOpen)
}

/// Whether a token of this sort is a name.
pub fn is_name(sort: Sort) -> bool
    ensures { result ≡ faults.is_name sort }
{
    matches!(sort, Sort::Name)
}

/// Whether a token of this sort is a number over the limit.
pub fn is_large(sort: Sort) -> bool
    ensures { result ≡ faults.is_large sort }
{
    match sort {
        Sort::Number(value) => value > u128::from(COEFFICIENT_LIMIT),
        _ => false,
    }
}

/// Whether a token of this sort belongs to expressions.
pub fn is_in_sums(sort: Sort) -> bool
    ensures { result ≡ faults.is_in_sums sort }
{
    matches!(
        sort,
        Sort::Name
            | Sort::Number(_)
            | Sort::Open
            | Sort::Close
            | Sort::Plus
            | Sort::Minus
            | Sort::Times
            | Sort::Caret
    )
}

/// Whether a token of this sort begins a statement.
pub fn is_first_word(sort: Sort) -> bool
    ensures { result ≡ faults.is_first_word sort }
{
    matches!(sort, Sort::Name | Sort::Skip | Sort::While | Sort::If)
}
