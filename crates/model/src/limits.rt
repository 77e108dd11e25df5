//! The limits of programs; a text whose program exceeds one of them is refused.

ghost use Rattle.std.specs.Prelude.{◌≡◌};
ghost use Rattle.model.specs.Limits.{rule_limit, place_limit, variable_limit, atom_limit, name_limit};
ghost use Rattle.model.specs.Limits.{token_limit, monomial_limit, degree_limit, coefficient_limit};

/// The maximum number of rules of a program.
pub const RULE_LIMIT: usize = 1000;

/// The maximum number of places of a symbol, and so of arguments of a term.
pub const PLACE_LIMIT: usize = 32;

/// The maximum number of variables of a rule, including the free ones.
pub const VARIABLE_LIMIT: usize = 64;

/// The maximum number of atoms of a rule: those of its guard, and one more for a cost.
pub const ATOM_LIMIT: usize = 64;

/// The maximum number of bytes of a name.
pub const NAME_LIMIT: usize = 256;

/// The maximum number of tokens of an argument, of a cost, or of a side of an atom.
pub const TOKEN_LIMIT: usize = 1024;

/// The maximum number of monomials of an expanded expression.
pub const MONOMIAL_LIMIT: usize = 64;

/// The maximum degree of an expanded expression.
pub const DEGREE_LIMIT: u32 = 8;

/// The maximum absolute value of a literal, and of a coefficient of an expanded expression.
pub const COEFFICIENT_LIMIT: u64 = 0x7fff_ffff_ffff_ffff;

/// The constants of the code are the limits of the definitions. The function has no code: its contract is the law.
pub fn limits_are_as_defined()
    ensures rules { RULE_LIMIT ≡ rule_limit }
    ensures places { PLACE_LIMIT ≡ place_limit }
    ensures variables { VARIABLE_LIMIT ≡ variable_limit }
    ensures atoms { ATOM_LIMIT ≡ atom_limit }
    ensures names { NAME_LIMIT ≡ name_limit }
    ensures tokens { TOKEN_LIMIT ≡ token_limit }
    ensures monomials { MONOMIAL_LIMIT ≡ monomial_limit }
    ensures degrees { DEGREE_LIMIT ≡ degree_limit }
    ensures coefficients { COEFFICIENT_LIMIT ≡ coefficient_limit }
{}
