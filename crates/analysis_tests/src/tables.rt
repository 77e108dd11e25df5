//! Tables of given bounds as lines write them: entries are divided by commas, and each is a place of a rule, or a rule
//! and 0 for its time; the bound; and the number of its lemma. A bound is a number, an input from `A` to `C`, or after
//! a `*` how many parts A a sum has.

use crate::words::{first_and_rest, number, result_variable};
use bound_expr::Bound;
use cert_types::ResultVariable;
use model::Memory;
use outcome::Stored;
use size_bounds::Table;
use std::alloc::Global;

// A bound.
fn bound(alloc: Global, word: &str) -> Result<Bound, Memory> {
    if let Some(parts) = word.strip_prefix('*') {
        let mut sum = Vec::new(alloc);
        for _ in 0..number(parts) {
            sum.push(Bound::Var(0))?;
        }
        return Ok(Bound::Sum(sum));
    }
    match word {
        "A" => Ok(Bound::Var(0)),
        "B" => Ok(Bound::Var(1)),
        "C" => Ok(Bound::Var(2)),
        _ => Ok(Bound::Const(u128::from(number(word)))),
    }
}

// The entry of a place of a rule, or at place 0 of its time.
fn entry(alloc: Global, entries: &str, rule: u32, place: u32) -> Result<Option<Stored>, Memory> {
    for written in entries.split(',') {
        let (at, rest) = first_and_rest(written.trim());
        let (word, lemma) = first_and_rest(rest);
        if result_variable(at) == (ResultVariable { rule, place }) && !rest.is_empty() {
            return Ok(Some(Stored {
                bound: bound(alloc, word)?,
                lemma: number(lemma),
            }));
        }
    }
    Ok(None)
}

/// The table of known bounds, for up to four rules with up to three places.
pub(crate) fn table(alloc: Global, entries: &str) -> Result<Table, Memory> {
    let mut times = Vec::new(alloc);
    let mut sizes = Vec::new(alloc);
    for rule in 0..5 {
        times.push(entry(alloc, entries, rule, 0)?)?;
        sizes.push(vec![in alloc;
            entry(alloc, entries, rule, 1)?,
            entry(alloc, entries, rule, 2)?,
            entry(alloc, entries, rule, 3)?,
        ]?)?;
    }
    Ok(Table { times, sizes })
}
