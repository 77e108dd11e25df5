//! Laws about the sequence of tableaux of a linear program. None of them requires that costs are at least 0, or that
//! numbers are in range.

ghost use Rattle.bland_end.specs.Laws.{BasesDecideTableaux, NoBasisComesTwice, PivotsAreFew, BasesSuffice, EndsAreOne};
ghost use Rattle.bland_end.specs.Worked.{BasesAreWorkedOut};
ghost use Rattle.bland_end.specs.WorkedPivots.{PivotsAreWorkedOut};

/// A basis determines its tableau. If two tableaux that pivots at entries above 0 lead to, by whatever rule, have the
/// same basis, they have the same fractions in the rows that are solved for the same unknown, including the right
/// sides, and in the three cost rows. Source: G. B. Dantzig, Linear Programming and Extensions, 1963 (canonical forms).
pub fn bases_decide_tableaux()
    ensures { BasesDecideTableaux }
{}

/// No two tableaux of the sequence have the same basis. Source: R. G. Bland, New finite pivoting rules for the simplex
/// method, 1977.
pub fn no_basis_comes_twice()
    ensures { NoBasisComesTwice }
{}

/// There are fewer pivots than there are sets of as many unknowns as there are rows.
pub fn pivots_are_few()
    ensures { PivotsAreFew }
{}

/// If at least as many pivots are allowed as there are bases, no answer of `solve` is `Budget`.
pub fn bases_suffice()
    ensures { BasesSuffice }
{}

/// A linear program has one end of its sequence, or one reason why the end isn't reached, unless memory runs out.
pub fn ends_are_one()
    ensures { EndsAreOne }
{}

/// Worked values of tableaux that pivots lead to: two with the same basis, but with the rows in another order and over
/// other scales, and some that pivots don't lead to. The function has no code: its contract is the law.
pub fn pivots_are_worked_out()
    ensures { PivotsAreWorkedOut }
{}

/// Worked values of numbers of sets and of bases, of bases that are the same and that aren't, and of a program whose
/// sequence has as many tableaux as it has bases. The function has no code: its contract is the law.
pub fn bases_are_worked_out()
    ensures { BasesAreWorkedOut }
{}
