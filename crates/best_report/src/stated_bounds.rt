//! The bounds that statements give, by their subjects.

ghost use Rattle.std.specs.Prelude.{◌≡◌, map, option_map, IfOk, OnOk};
ghost use Rattle.signed_bounds.specs.Views.{signed_of};
ghost use Rattle.claims_check.specs.Views.{stated_of};
ghost use Rattle.best_report.specs.declared.subject.Subject.{Subject as AnySubject};
ghost use Rattle.best_report.specs.Subjects.{stated_by};
ghost use Rattle.best_report.specs.Statements.{bound_on, first_of, first_on, statements_in};

use crate::subject::Subject;
use claims_check::Statement;
use indexmap::IndexMap;
use model::Memory;
use signed_bounds::Signed;
use std::alloc::Global;

/// The bound of the first statement on each subject on which there is one. The time is near-linear in the statements.
///
/// # Errors
///
/// `Memory` where an allocation fails.
pub(crate) fn bounds_by_subject<'a>(
    alloc: Global,
    stated: &'a [Statement],
) -> Result<IndexMap<Subject, &'a Signed>, Memory>
    ensures { IfOk result (λ table. (s : AnySubject) →
        first_on (statements_in table.entries) s ≡ first_on (map stated_of stated.now) s) }
{
    let mut table = IndexMap::new(alloc);
    for statement in stated {
        add_statement(&mut table, statement)?;
    }
    Ok(table)
}

/// The bound on a subject in a table, if there is one.
pub(crate) fn bound_in<'a>(
    table: &IndexMap<Subject, &'a Signed>,
    subject: Subject,
) -> Option<&'a Signed>
    ensures { option_map (λ b. signed_of b.now) result ≡ first_on (statements_in table.now.entries) subject }
{
    match table.get(&subject) {
        Some(bound) => Some(*bound),
        None => None,
    }
}

// Adds the bound of a statement, unless there is one on its subject. A fact at a symbol is on none.
fn add_statement<'a>(
    table: &mut IndexMap<Subject, &'a Signed>,
    statement: &'a Statement,
) -> Result<(), Memory>
    ensures { OnOk result ((s : AnySubject) → first_on (statements_in table.new.entries) s
        ≡ first_of (first_on (statements_in table.old.entries) s) (bound_on (stated_of statement.now) s)) }
{
    match statement {
        Statement::Time(rule, bound) => add_bound(table, Subject::Time(u64::from(*rule)), bound),
        Statement::Cost(rule, bound) => add_bound(table, Subject::Cost(u64::from(*rule)), bound),
        Statement::Total(bound) => add_bound(table, Subject::Total, bound),
        Statement::Above(rule, place, bound) => {
            add_bound(
                table,
                Subject::Above(u64::from(*rule), u64::from(*place)),
                bound,
            )
        }
        Statement::Below(rule, place, bound) => {
            add_bound(
                table,
                Subject::Below(u64::from(*rule), u64::from(*place)),
                bound,
            )
        }
        Statement::AtSymbol(_, _) => Ok(()),
    }
}

/// Adds a bound on a subject, unless there is one.
///
/// # Errors
///
/// `Memory` where an allocation fails.
pub(crate) fn add_bound<'a>(
    table: &mut IndexMap<Subject, &'a Signed>,
    subject: Subject,
    bound: &'a Signed,
) -> Result<(), Memory>
    ensures { OnOk result ((s : AnySubject) → first_on (statements_in table.new.entries) s
        ≡ first_of (first_on (statements_in table.old.entries) s) (bound_on (stated_by subject (signed_of bound.now)) s)) }
{
    match table.get(&subject) {
        Some(_) => Ok(()),
        None => {
            table.insert(subject, bound)?;
            Ok(())
        }
    }
}
