//! Builds the node from a solution of a rank question's linear program.

ghost use Rattle.std.specs.Prelude.{◌≡◌, ◌+◌, ◌*◌, ◌<◌, ◌≤◌, ◌^◌, [], ◌∷◌, length, map, IfOk, OnOk};
ghost use Rattle.std.specs.List.{All};
ghost use Rattle.simplex_core.specs.linear_forms.Forms.{at};
ghost use Rattle.simplex_core.specs.linear_forms.Limits.{certificate_limit};
ghost use Rattle.simplex_core.specs.linear_forms.Questions.{group_columns};
ghost use Rattle.simplex_core.specs.linear_forms.QuestionLaws.{after, parameters_of, multipliers_by_group};
ghost use Rattle.its_model.specs.Views.{program_of};
ghost use Rattle.poly_terms.specs.model.Programs.{arity_of};
ghost use Rattle.cert_types.specs.Views.{form_of as part_of};
ghost use Rattle.simplex_core.specs.Scaling.{AreWithin};
ghost use Rattle.rank_search.specs.ShutPlaces.{is_listed};
ghost use Rattle.rule_questions.specs.ProgramQuestions.{places_of};
ghost use Rattle.rank_search.specs.Reading.{open_count, form_by, read_forms, shape_at, shapes, IsNodeRead};

use crate::coefficients::arity_at;
use crate::shut::{is_among, shut_set};
use cert_types::{Form, RankNode};
use guard_prep::RuleRows;
use its_model::Program;
use poly_terms::Memory;
use rule_questions::{multipliers_from, parameter_at};
use simplex_core::Numerators;
use std::alloc::Global;
use std::collections::BTreeSet;

/// The node that a solution gives: the function of its parameters over its denominator, symbol by symbol, with the
/// multipliers of each rule of the set and of the floor.
pub(crate) fn rank_node(
    alloc: Global,
    p: &Program,
    prepared_rules: &[RuleRows],
    set: &[u32],
    strict: u32,
    shut: &[(u32, u32)],
    symbols: &[u32],
    parameters: usize,
    solution: &Numerators,
) -> Result<RankNode, Memory>
    requires few { length symbols.now ≤ 2000 }
    requires few_places { All (λ s. arity_of (program_of p.now) s ≤ 32) symbols.now }
    requires few_parameters { parameters < 2 ^ 30 }
    requires within { AreWithin certificate_limit (length solution.now.numbers.items) solution.now.numbers.items }
    requires den { solution.now.den ≤ certificate_limit }
    requires room { 2 * parameters + group_columns (shapes prepared_rules.now set.now strict)
        ≤ length solution.now.numbers.items }
    ensures { IfOk result (λ node. IsNodeRead (program_of p.now) prepared_rules.now
        (record { set = set.now; strict = strict; shut = places_of shut.now }) symbols.now parameters
        solution.now.numbers.items solution.now.den node) }
{
    let forms = forms_from(alloc, p, shut, symbols, &solution.numbers)?;
    let mut next = 2 * parameters;
    let moves = moves_from(alloc, prepared_rules, set, &solution.numbers, &mut next)?;
    let floor = rule_multipliers(alloc, prepared_rules, strict, &solution.numbers, next)?;
    Ok(RankNode {
        rule: strict,
        set: Vec::from_slice(alloc, set)?,
        den: solution.den as u64,
        forms,
        moves,
        floor,
        uses: Vec::new(alloc),
    })
}

// The function's form at each symbol, from the columns in order.
fn forms_from(
    alloc: Global,
    p: &Program,
    shut: &[(u32, u32)],
    symbols: &[u32],
    numbers: &[i64],
) -> Result<Vec<Form>, Memory>
    requires few { length symbols.now ≤ 2000 }
    requires few_places { All (λ s. arity_of (program_of p.now) s ≤ 32) symbols.now }
    requires within { AreWithin certificate_limit (length numbers.now) numbers.now }
    ensures { IfOk result (λ forms. map part_of forms.items
        ≡ read_forms (program_of p.now) (places_of shut.now) (parameters_of (at numbers.now)) 0 symbols.now) }
{
    let closed = shut_set(alloc, shut)?;
    let mut forms = Vec::new(alloc);
    let mut next = 0;
    for symbol in symbols {
        let form = form_from(alloc, p, &closed, *symbol, numbers, &mut next)?;
        forms.push(form)?;
    }
    Ok(forms)
}

// The function's form at a symbol, from the next parameter on.
fn form_from(
    alloc: Global,
    p: &Program,
    closed: &BTreeSet<(u32, u32)>,
    symbol: u32,
    numbers: &[i64],
    next: &mut u32,
) -> Result<Form, Memory>
    requires few_places { arity_of (program_of p.now) symbol ≤ 32 }
    requires few { next.old ≤ 2 ^ 20 }
    requires within { AreWithin certificate_limit (length numbers.now) numbers.now }
    ensures form { IfOk result (λ form. part_of form
        ≡ form_by (is_listed closed.now) (program_of p.now) (parameters_of (at numbers.now)) next.old symbol) }
    ensures next { OnOk result (next.new
        ≡ next.old + open_count (is_listed closed.now symbol) 1 (arity_of (program_of p.now) symbol) + 1) }
{
    let mut coefs = Vec::new(alloc);
    let mut parameter = *next;
    for before in 0..arity_at(p, symbol) {
        let is_shut = is_among(closed, symbol, before + 1);
        if is_shut {
            coefs.push(0)?;
        } else {
            coefs.push(parameter_at(numbers, parameter))?;
            parameter += 1;
        }
    }
    *next = parameter + 1;
    Ok(Form {
        symbol,
        coefs,
        constant: parameter_at(numbers, parameter),
    })
}

// The multipliers of the rows of each rule of the set, from the next column on; `next` is then the column after them.
fn moves_from(
    alloc: Global,
    prepared_rules: &[RuleRows],
    set: &[u32],
    numbers: &[i64],
    next: &mut usize,
) -> Result<Vec<Vec<u64>>, Memory>
    requires { next.old + group_columns (map (shape_at prepared_rules.now) set.now) ≤ length numbers.now }
    ensures moves { IfOk result (λ moves. map (λ m. m.items) moves.items
        ≡ multipliers_by_group (after next.old (at numbers.now)) (map (shape_at prepared_rules.now) set.now)) }
    ensures next { OnOk result (next.new ≡ next.old + group_columns (map (shape_at prepared_rules.now) set.now)) }
{
    let mut moves = Vec::new(alloc);
    for rule in set {
        let multipliers = rule_multipliers(alloc, prepared_rules, *rule, numbers, *next)?;
        *next += multipliers.len() + 1;
        moves.push(multipliers)?;
    }
    Ok(moves)
}

// The multipliers of the rows of a rule, from a column on.
fn rule_multipliers(
    alloc: Global,
    prepared_rules: &[RuleRows],
    rule: u32,
    numbers: &[i64],
    start: usize,
) -> Result<Vec<u64>, Memory>
    requires { start + group_columns (shape_at prepared_rules.now rule ∷ []) ≤ length numbers.now }
    ensures { IfOk result (λ m. m.items ∷ []
        ≡ multipliers_by_group (after start (at numbers.now)) (shape_at prepared_rules.now rule ∷ [])) }
{
    multipliers_from(alloc, numbers, start, rows_at(prepared_rules, rule))
}

// How many rows a rule has; rules are numbered from 1.
fn rows_at(prepared_rules: &[RuleRows], rule: u32) -> usize
    ensures { result ≡ length (shape_at prepared_rules.now rule).rows }
{
    if rule == 0 {
        return 0;
    }
    match prepared_rules.get(rule as usize - 1) {
        Some(prepared_rule) => prepared_rule.rows.len(),
        None => 0,
    }
}
