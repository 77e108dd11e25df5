//! Writes polynomials.

ghost use Rattle.std.specs.Prelude.{◌≡◌, ◌++◌, [], ◌==◌, if◌then◌else◌, codes, decimal, map, OnOk, IfOk};
ghost use Rattle.std.specs.Int.{is_negative};
ghost use Rattle.text_core.specs.Names.{name_of};
ghost use Rattle.poly_terms.specs.Views.{monomial_of, monomials_of};
ghost use Rattle.signed_text.specs.Polynomials.{polynomial_text, rank_of as rank_in, multiple_text, variable_text};
ghost use Rattle.signed_text.specs.Passes.{signed_monomial, signed_monomials, is_first_after, with_rank, factors_after_times};
ghost use Rattle.signed_text.specs.Passes.{plus_sign, minus_sign};

use itoa::Buffer;
use poly_terms::{Memory, Monomial};
use text_core::Name;

/// Appends the text of a polynomial over variables with these names: products of variables first, then single
/// variables, and then numbers; of products and of variables what is added before what is subtracted.
///
/// # Errors
///
/// `Memory` where an allocation fails.
pub fn write_polynomial(
    text: &mut Vec<u8>,
    names: &[Name],
    monomials: &[Monomial],
) -> Result<(), Memory>
    ensures { OnOk result (text.new.items
        ≡ text.old.items ++ polynomial_text (map name_of names.now) (monomials_of monomials.now)) }
{
    let mut is_first = true;
    for rank in 0..5 {
        is_first = write_ranked(text, names, monomials, rank, is_first)?;
    }
    if is_first {
        return text.extend_from_slice(b"0");
    }
    Ok(())
}

// Appends the monomials of a rank. Says whether the next one is the first of the polynomial.
fn write_ranked(
    text: &mut Vec<u8>,
    names: &[Name],
    monomials: &[Monomial],
    rank: u8,
    first: bool,
) -> Result<bool, Memory>
    ensures text { IfOk result (λ is_next_first. text.new.items ≡ text.old.items
        ++ signed_monomials (map name_of names.now) first (with_rank rank (monomials_of monomials.now))) }
    ensures is_next_first { IfOk result (λ is_next_first. is_next_first ≡ is_first_after first (with_rank rank (monomials_of monomials.now))) }
{
    let mut is_first = first;
    for monomial in monomials {
        if rank_of(monomial) == rank {
            write_monomial(text, names, is_first, monomial)?;
            is_first = false;
        }
    }
    Ok(is_first)
}

// The rank of a monomial: products of variables come first, then single variables, and then numbers; of products and of
// variables what is added comes before what is subtracted.
fn rank_of(monomial: &Monomial) -> u8
    ensures { result ≡ rank_in (monomial_of monomial.now) }
{
    match monomial.vars.as_slice() {
        [] => 4,
        [_] => 2 + u8::from(monomial.coef.is_negative()),
        [_, _, ..] => u8::from(monomial.coef.is_negative()),
    }
}

// Appends a monomial with its sign.
fn write_monomial(
    text: &mut Vec<u8>,
    names: &[Name],
    first: bool,
    monomial: &Monomial,
) -> Result<(), Memory>
    ensures { OnOk result (text.new.items
        ≡ text.old.items ++ signed_monomial (map name_of names.now) first (monomial_of monomial.now)) }
{
    text.extend_from_slice(sign(first, monomial.coef))?;
    write_multiple(text, names, monomial.coef.unsigned_abs(), &monomial.vars)
}

// The sign of a monomial with this coefficient: the first one has none where it is added.
fn sign(first: bool, coef: i128) -> &'static [u8]
    ensures { result.now ≡ (if is_negative coef then minus_sign first else plus_sign first) }
{
    match (first, coef.is_negative()) {
        (true, true) => b"-",
        (true, false) => b"",
        (false, true) => b" - ",
        (false, false) => b" + ",
    }
}

// Appends a number times variables: the number 1 is left out where there are variables.
fn write_multiple(
    text: &mut Vec<u8>,
    names: &[Name],
    size: u128,
    vars: &[u32],
) -> Result<(), Memory>
    ensures { OnOk result (text.new.items ≡ text.old.items ++ multiple_text (map name_of names.now) size vars.now) }
{
    let Some((first, others)) = vars.split_first() else {
        return text.extend_from_slice(Buffer::new().format(size).as_bytes());
    };
    write_multiplier(text, size)?;
    write_variable(text, names, *first)?;
    write_factors_after_times(text, names, others)
}

// Appends a number and `*`, and nothing for 1.
fn write_multiplier(text: &mut Vec<u8>, size: u128) -> Result<(), Memory>
    ensures { OnOk result (text.new.items
        ≡ text.old.items ++ (if size == 1 then [] else decimal size ++ codes "*")) }
{
    if size == 1 {
        return Ok(());
    }
    text.extend_from_slice(Buffer::new().format(size).as_bytes())?;
    text.extend_from_slice(b"*")
}

// Appends variables, with a `*` before each.
fn write_factors_after_times(text: &mut Vec<u8>, names: &[Name], vars: &[u32]) -> Result<(), Memory>
    ensures { OnOk result (text.new.items ≡ text.old.items ++ factors_after_times (map name_of names.now) vars.now) }
{
    for variable in vars {
        text.extend_from_slice(b"*")?;
        write_variable(text, names, *variable)?;
    }
    Ok(())
}

/// Appends the name of a variable; one that isn't there has the value 0.
///
/// # Errors
///
/// `Memory` where an allocation fails.
pub fn write_variable(text: &mut Vec<u8>, names: &[Name], variable: u32) -> Result<(), Memory>
    ensures { OnOk result (text.new.items ≡ text.old.items ++ variable_text (map name_of names.now) variable) }
{
    match names.get(variable as usize) {
        Some(name) => text.extend_from_slice(&name.bytes),
        None => text.extend_from_slice(b"0"),
    }
}
