//! What the copies of a symbol have among their facts.

ghost use Rattle.std.specs.Prelude.{◌≡◌, map, IfOk};
ghost use Rattle.poly_terms.specs.Views.{term_of};
ghost use Rattle.refined_programs.specs.Affine.{affine_of};
ghost use Rattle.refined_programs.specs.Views.{copy_of};
ghost use Rattle.program_claims.specs.SymbolFacts.{is_fact_below as is_plain_fact_below};
ghost use Rattle.program_claims.specs.SymbolFacts.{has_fact_below as has_plain_fact_below, has_copy as has_plain_copy};
ghost use Rattle.program_claims.specs.SymbolFacts.{have_facts_below as have_plain_facts_below};
ghost use Rattle.claims_check.specs.Symbols.{is_met};

use poly_terms::{Expr, Memory};
use program_copies::copied_expr;
use refined_programs::{Affine, SymbolCopy};
use signed_within::expands_to_squares;
use std::alloc::Global;

// Whether some copy is of the symbol.
pub(crate) fn has_copy(copies: &[SymbolCopy], symbol: u32) -> bool
    ensures { result ≡ has_plain_copy symbol (map copy_of copies.now) }
{
    for copy in copies {
        if copy.over == symbol {
            return true;
        }
    }
    false
}

// Whether each copy of a symbol has a fact that is at most the expression.
pub(crate) fn have_facts_below(
    alloc: Global,
    copies: &[SymbolCopy],
    symbol: u32,
    f: &Expr,
) -> Result<bool, Memory>
    ensures { IfOk result (λ r. r ≡ have_plain_facts_below symbol (term_of f.now) (map copy_of copies.now)) }
{
    for copy in copies {
        let is_met = is_met_by(alloc, copy, symbol, f)?;
        if !is_met {
            return Ok(false);
        }
    }
    Ok(true)
}

// Whether a copy is of another symbol, or has a fact that is at most the expression.
fn is_met_by(alloc: Global, copy: &SymbolCopy, symbol: u32, f: &Expr) -> Result<bool, Memory>
    ensures { IfOk result (λ r. r ≡ is_met symbol (term_of f.now) (copy_of copy.now)) }
{
    if copy.over == symbol {
        has_fact_below(alloc, &copy.facts, f)
    } else {
        Ok(true)
    }
}

// Whether some fact is at most the expression.
fn has_fact_below(alloc: Global, facts: &[Affine], f: &Expr) -> Result<bool, Memory>
    ensures { IfOk result (λ r. r ≡ has_plain_fact_below (term_of f.now) (map affine_of facts.now)) }
{
    for fact in facts {
        let is_below = is_fact_below(alloc, fact, f)?;
        if is_below {
            return Ok(true);
        }
    }
    Ok(false)
}

// Whether a fact is at most the expression everywhere, as squares show it.
fn is_fact_below(alloc: Global, fact: &Affine, f: &Expr) -> Result<bool, Memory>
    ensures { IfOk result (λ r. r ≡ is_plain_fact_below (term_of f.now) (affine_of fact.now)) }
{
    let difference = Expr::difference(alloc, copied_expr(alloc, f)?, fact.expr(alloc)?)?;
    expands_to_squares(alloc, &difference)
}
