//! Computes the rows of a rule.

ghost use Rattle.std.specs.Prelude.{◌≡◌, ◌+◌, ◌<◌, ◌≤◌, ◌++◌, length, map, nat_abs, IfOk, OnOk, None};
ghost use Rattle.std.specs.List.{AllByRecursion};
ghost use Rattle.poly_terms.specs.model.Limits.{place_limit, coefficient_limit};
ghost use Rattle.poly_terms.specs.model.Programs.{Compare};
ghost use Rattle.poly_terms.specs.Expanding.{expanded, variable_form};
ghost use Rattle.poly_terms.specs.Faults.{first_fault};
ghost use Rattle.poly_terms.specs.Ordered.{IsAscending};
ghost use Rattle.poly_terms.specs.AffineForms.{HasVariablesBelow, linear_form};
ghost use Rattle.poly_terms.specs.Views.{term_of, poly_of, form_of};
ghost use Rattle.its_model.specs.Valid.{IsValidAtom, IsValidComparison, difference_of};
ghost use Rattle.its_model.specs.Views.{atom_of, relation_of, rule_of};
ghost use Rattle.guard_prep.specs.Laws.{IsPreparable};
ghost use Rattle.guard_prep.specs.Prepared.{is_nonlinear, count_true, opposite_form, rows_by, rows_of_atom, rows_of_guard};
ghost use Rattle.guard_prep.specs.Prepared.{all_tightened, new_values_from, prepared};
ghost use Rattle.guard_prep.specs.Views.{prepared_of};

use crate::rule_rows::RuleRows;
use crate::tighten::push_tightened;
use its_model::{Atom, Rel, Rule};
use poly_terms::{
    Expr, Memory, Monomial, Poly, Row, expand, expand_difference, expand_strict_difference,
};
use std::alloc::{AllocError, Global};

/// The rows of a rule of a valid program.
///
/// The unknowns are its left variables, its free variables, and one for each update of degree 2 or more. An atom whose
/// difference has degree at most 1 gives rows, which are tightened over the integers; an atom of a higher degree gives
/// none.
///
/// # Errors
///
/// `Memory` if an allocation fails.
pub fn rows(alloc: Global, r: &Rule) -> Result<RuleRows, Memory>
    requires { IsPreparable (rule_of r.now) }
    ensures { IfOk result (λ m. prepared_of m ≡ prepared (rule_of r.now)) }
{
    let polys = polys_of(alloc, &r.updates)?;
    let nonlinear = nonlinear_of(alloc, &polys)?;
    let variables = r.left + r.free;
    let unknowns = variables + count_of(&nonlinear);
    let new_values = new_values_of(alloc, &polys, variables, unknowns)?;
    let rows = guard_rows(alloc, &r.guard, unknowns)?;
    Ok(RuleRows {
        left: r.left,
        unknowns,
        rows,
        new_values,
        nonlinear,
        polys,
    })
}

// The expanded polynomials of the updates.
fn polys_of(alloc: Global, updates: &[Expr]) -> Result<Vec<Poly>, Memory>
    requires { AllByRecursion (λ u. first_fault u ≡ None) (map term_of updates.now) }
    ensures { IfOk result (λ polys. map poly_of polys.items ≡ map expanded (map term_of updates.now)) }
{
    let mut polys = Vec::new(alloc);
    for u in updates {
        polys.push(expanded_without_fault(alloc, u)?)?;
    }
    Ok(polys)
}

// The expanded polynomial of an expression without a fault.
fn expanded_without_fault(alloc: Global, e: &Expr) -> Result<Poly, Memory>
    requires { first_fault (term_of e.now) ≡ None }
    ensures { IfOk result (λ p. poly_of p ≡ expanded (term_of e.now)) }
{
    match expand(alloc, e) {
        Ok(p) => Ok(p),
        Err(_) => Err(AllocError),
    }
}

// Which polynomials have degree 2 or more.
fn nonlinear_of(alloc: Global, polys: &[Poly]) -> Result<Vec<bool>, Memory>
    ensures { IfOk result (λ nonlinear. nonlinear.items ≡ map is_nonlinear (map poly_of polys.now)) }
{
    let mut nonlinear = Vec::new(alloc);
    for p in polys {
        nonlinear.push(p.degree() > 1)?;
    }
    Ok(nonlinear)
}

// How many flags are true.
fn count_of(nonlinear: &[bool]) -> u32
    requires { length nonlinear.now ≤ place_limit }
    ensures { result ≡ count_true nonlinear.now }
{
    let mut count = 0;
    for b in nonlinear {
        if *b {
            count += 1;
        }
    }
    count
}

// The new values. A nonlinear place has an unknown of its own; the first of these has the number `own`.
fn new_values_of(alloc: Global, polys: &[Poly], own: u32, unknowns: u32) -> Result<Vec<Row>, Memory>
    requires ascending { AllByRecursion IsAscending (map poly_of polys.now) }
    requires in_range { AllByRecursion (HasVariablesBelow unknowns) (map poly_of polys.now) }
    requires room { own + count_true (map is_nonlinear (map poly_of polys.now)) ≤ unknowns }
    ensures { IfOk result (λ new_values. map form_of new_values.items ≡ new_values_from unknowns own (map poly_of polys.now)) }
{
    let mut new_values = Vec::new(alloc);
    let mut next = own;
    for p in polys {
        match p.linear_part(alloc, unknowns)? {
            Some(row) => new_values.push(row)?,
            None => {
                new_values.push(unit_row(alloc, next, unknowns)?)?;
                next += 1;
            }
        }
    }
    Ok(new_values)
}

// The form of a single unknown.
fn unit_row(alloc: Global, own: u32, unknowns: u32) -> Result<Row, Memory>
    requires { own < unknowns }
    ensures { IfOk result (λ row. form_of row ≡ linear_form unknowns (variable_form own)) }
{
    let vars = vec![in alloc; own]?;
    let terms = vec![in alloc; Monomial { coef: 1, vars }]?;
    let p = Poly { terms };
    match p.linear_part(alloc, unknowns)? {
        Some(row) => Ok(row),
        None => Err(AllocError),
    }
}

// The rows of the atoms, tightened.
fn guard_rows(alloc: Global, atoms: &[Atom], unknowns: u32) -> Result<Vec<Row>, Memory>
    requires { AllByRecursion (IsValidAtom unknowns) (map atom_of atoms.now) }
    ensures { IfOk result
        (λ rows. map form_of rows.items ≡ all_tightened (rows_of_guard unknowns (map atom_of atoms.now))) }
{
    let mut rows = Vec::new(alloc);
    for atom in atoms {
        push_atom(alloc, &mut rows, atom, unknowns)?;
    }
    Ok(rows)
}

// Appends the rows of an atom, tightened.
fn push_atom(alloc: Global, rows: &mut Vec<Row>, atom: &Atom, unknowns: u32) -> Result<(), Memory>
    requires { IsValidAtom unknowns (atom_of atom.now) }
    ensures { OnOk result (map form_of rows.new.items
        ≡ map form_of rows.old.items ++ all_tightened (rows_of_atom unknowns (atom_of atom.now))) }
{
    match atom {
        Atom::Always => Ok(()),
        Atom::Compare { left, rel, right } => push_comparison(
            alloc, rows, left, *rel, right, unknowns,
        ),
    }
}

// Appends the rows of a comparison, tightened: none if its difference has degree 2 or more.
fn push_comparison(
    alloc: Global,
    rows: &mut Vec<Row>,
    d: &Expr,
    rel: Rel,
    e: &Expr,
    unknowns: u32,
) -> Result<(), Memory>
    requires { IsValidComparison unknowns (term_of d.now) (relation_of rel) (term_of e.now) }
    ensures { OnOk result (map form_of rows.new.items ≡ map form_of rows.old.items
        ++ all_tightened (rows_of_atom unknowns (Compare (term_of d.now) (relation_of rel) (term_of e.now)))) }
{
    let p = difference(alloc, d, rel, e)?;
    match p.linear_part(alloc, unknowns)? {
        Some(row) => push_rows(alloc, rows, rel, row),
        None => Ok(()),
    }
}

// The expanded difference of a comparison.
fn difference(alloc: Global, d: &Expr, rel: Rel, e: &Expr) -> Result<Poly, Memory>
    requires { first_fault (difference_of (term_of d.now) (relation_of rel) (term_of e.now)) ≡ None }
    ensures { IfOk result
        (λ p. poly_of p ≡ expanded (difference_of (term_of d.now) (relation_of rel) (term_of e.now))) }
{
    let made = match rel {
        Rel::Ge | Rel::Eq => expand_difference(alloc, d, e),
        Rel::Gt => expand_strict_difference(alloc, d, e),
        Rel::Le => expand_difference(alloc, e, d),
        Rel::Lt => expand_strict_difference(alloc, e, d),
    };
    match made {
        Ok(p) => Ok(p),
        Err(_) => Err(AllocError),
    }
}

// Appends the rows of a comparison, given its difference's row: an equation also has the negated row.
fn push_rows(alloc: Global, rows: &mut Vec<Row>, rel: Rel, row: Row) -> Result<(), Memory>
    requires coefs { AllByRecursion (λ a. nat_abs a ≤ coefficient_limit) row.coefs.items }
    requires constant { nat_abs row.constant ≤ coefficient_limit }
    ensures { OnOk result (map form_of rows.new.items
        ≡ map form_of rows.old.items ++ all_tightened (rows_by (relation_of rel) (form_of row))) }
{
    if rel == Rel::Eq {
        let opposite = opposite_row(alloc, &row)?;
        push_tightened(rows, row)?;
        push_tightened(rows, opposite)
    } else {
        push_tightened(rows, row)
    }
}

// The negated row.
fn opposite_row(alloc: Global, row: &Row) -> Result<Row, Memory>
    requires coefs { AllByRecursion (λ a. nat_abs a ≤ coefficient_limit) row.now.coefs.items }
    requires constant { nat_abs row.now.constant ≤ coefficient_limit }
    ensures { IfOk result (λ opposite. form_of opposite ≡ opposite_form (form_of row.now)) }
{
    let mut coefs = Vec::new(alloc);
    for a in &row.coefs {
        coefs.push(-*a)?;
    }
    Ok(Row {
        coefs,
        constant: -row.constant,
    })
}
