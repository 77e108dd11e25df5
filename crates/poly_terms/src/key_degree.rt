//! The degree of packed monomials.

ghost use Rattle.std.specs.Prelude.{◌≡◌, ◌≤◌, length};
ghost use Rattle.model.specs.Limits.{degree_limit};
ghost use Rattle.model.specs.Polynomials.{degree_of};
ghost use Rattle.poly_terms.specs.Keys.{factors_at, monomials_at, number_of};

use crate::keyed::{Key, Keyed, last_digit, other_digits};
use model::DEGREE_LIMIT;

/// The greatest number of factors of a monomial, or some number over 8 if a monomial has more than 8.
pub(crate) fn list_degree(table: &[u32], es: &[Keyed]) -> u32
    ensures { result ≤ degree_limit → degree_of (monomials_at table.now es.now) ≤ result }
{
    let mut most = 0;
    for e in es {
        most = most.max(factor_count(table, e.key));
    }
    most
}

// How many factors a key has, or some number over 8 if there are more than 8.
fn factor_count(table: &[u32], key: Key) -> u32
    ensures { result ≤ degree_limit → length (factors_at table.now (number_of key)) ≤ result }
{
    let mut count = 0;
    let mut rest = key;
    for _ in table {
        count += last_digit(rest);
        if count > DEGREE_LIMIT {
            return count;
        }
        rest = other_digits(rest);
    }
    count
}
