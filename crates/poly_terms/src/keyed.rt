//! Monomials with packed exponents.

ghost use Rattle.std.specs.Prelude.{◌≡◌, ◌<◌, ◌/◌, ◌%◌, IfOk, true};
ghost use Rattle.poly_terms.specs.Keys.{key_sum, number_of};

use crate::key_error::KeyError;

/// The base of the digits of a key.
const DIGIT_BASE: u128 = 16;

/// The greatest power of the base that fits in a limb.
const HIGHEST_UNIT: u128 = 0x1000_0000_0000_0000_0000_0000_0000_0000;

/// The packed exponents of at most 64 variables. The digits in base 16, the last one first, are the exponents of the
/// variables of a table; the low limb has the first 32 of them.
#[derive(Clone, Copy)]
pub(crate) struct Key {
    pub(crate) high: u128,
    pub(crate) low: u128,
}

/// A monomial whose exponents are packed.
#[derive(Clone, Copy)]
pub(crate) struct Keyed {
    pub(crate) key: Key,
    pub(crate) coef: i128,
}

/// The key without factors.
pub(crate) const NO_FACTORS: Key = Key { high: 0, low: 0 };

/// The constant 1.
pub(crate) const ONE: Keyed = Keyed {
    key: NO_FACTORS,
    coef: 1,
};

/// The constant -1.
pub(crate) const MINUS_ONE: Keyed = Keyed {
    key: NO_FACTORS,
    coef: -1,
};

/// The key of the factors of both keys, if no limb is too large.
pub(crate) fn key_of_both(k: Key, l: Key) -> Result<Key, KeyError>
    ensures { IfOk result (λ sum. sum ≡ key_sum k l) }
{
    match k.high.checked_add(l.high) {
        None => Err(KeyError::Unfit),
        Some(high) => match k.low.checked_add(l.low) {
            None => Err(KeyError::Unfit),
            Some(low) => Ok(Key { high, low }),
        },
    }
}

/// Whether two keys are the same.
pub(crate) fn is_same_key(k: Key, l: Key) -> bool
    ensures { result ≡ true → k ≡ l }
{
    k.high == l.high && k.low == l.low
}

/// Whether the first key is less than the second.
pub(crate) fn is_below(k: Key, l: Key) -> bool
    ensures { result ≡ true → number_of k < number_of l }
{
    if k.high == l.high {
        k.low < l.low
    } else {
        k.high < l.high
    }
}

/// The last digit.
pub(crate) fn last_digit(k: Key) -> u32
    ensures { result ≡ number_of k % 16 }
{
    (k.low % DIGIT_BASE) as u32
}

/// The other digits.
pub(crate) fn other_digits(k: Key) -> Key
    ensures { number_of result ≡ number_of k / 16 }
{
    let carried = k.high % DIGIT_BASE * HIGHEST_UNIT;
    Key {
        high: k.high / DIGIT_BASE,
        low: k.low / DIGIT_BASE + carried,
    }
}

/// The key with one more digit 0 after its last one, and without the first of its 64 digits.
pub(crate) fn with_zero_digit(k: Key) -> Key {
    let carried = k.low / HIGHEST_UNIT;
    Key {
        high: k.high % HIGHEST_UNIT * DIGIT_BASE + carried,
        low: k.low % HIGHEST_UNIT * DIGIT_BASE,
    }
}
