//! The operations that the simplex loop needs of its table, as a trait.

ghost use Rattle.std.specs.Prelude.{◌≡◌, ℕ, MatchBool, MatchResult, IfOk};
ghost use Rattle.linear_forms.specs.LinearProgram.{LinearProgram};
ghost use Rattle.simplex_core.specs.Tableau.{Tableau};
ghost use Rattle.simplex_core.specs.Bland.{is_infeasible, entering};
ghost use Rattle.simplex_core.specs.TableClauses.{ShowsInRange, ShowsOutOfRange, MayPivot, IsAdvanced, MayGiveDual};
ghost use Rattle.simplex_core.specs.TableClauses.{GivesSolution, GivesBasis, GivesDual};
ghost use Rattle.simplex_core.specs.Halts.{IsUnmade};

use frac128::Frac;
use std::alloc::{AllocError, Global};

/// Why a table can't execute a pivot.
#[derive(Debug, Drop, PartialEq, Eq)]
pub(crate) enum Unmade {
    /// A number doesn't fit in the table; this says nothing about the tableau.
    Beyond,
    /// Memory ran out.
    Memory,
}

impl From<AllocError> for Unmade {
    ghost use Rattle.std.specs.Prelude.{◌≡◌};
    ghost use Rattle.simplex_core.specs.declared.simplex_table.Unmade.TheVariants.{Memory};

    ghost from_gives = { λ _ e. e ≡ Memory };

    fn from(_: AllocError) -> Unmade {
        Unmade::Memory
    }
}

/// A table of numbers that represents a simplex tableau: its tests, Bland's choice and pivot, and the values that are
/// read off it at the end of the sequence. The simplex loop is written over this trait and uses only its clauses, which
/// leave open how the numbers are stored.
///
/// `shows` says which tableaux the table represents: the numbers and the basis are those of this tableau, and the sizes
/// are those of this linear program. The table determines a tableau only up to the scales of its rows, so `shows` is a
/// relation. `gives_up` is what holds if a number doesn't fit: ⊥ for a table in which every number fits.
pub(crate) trait SimplexTable {
    ghost shows: { LinearProgram → Self → Tableau → Type 0 };

    ghost gives_up: { Type 0 };

    /// Whether each number is in range: its numerator and denominator, in lowest terms, are below 2^31.
    fn is_in_range(&self) -> bool
        ensures { MatchBool result (ShowsInRange shows self.now) (ShowsOutOfRange shows self.now) };

    /// Whether the sequence ends as infeasible.
    fn is_infeasible(&self) -> bool
        ensures { (p : LinearProgram) (t : Tableau) → shows p self.now t → result ≡ is_infeasible p t };

    /// The entering column, if one may enter.
    fn entering(&self) -> Option<usize>
        ensures { (p : LinearProgram) (t : Tableau) → shows p self.now t → result ≡ entering p t };

    /// Executes a pivot at the leaving row of the entering column. Error: memory ran out, or a number doesn't fit; the
    /// table's contents are then unspecified.
    fn advance(&mut self, alloc: Global, column: usize) -> Result<(), Unmade>
        requires { MayPivot shows self.old column }
        ensures { MatchResult result (λ _. IsAdvanced shows self.old self.new column) (IsUnmade gives_up) };

    /// The basic solution, one number for each column of the program. Error: memory ran out.
    fn solution(&self, alloc: Global) -> Result<Vec<Frac>, AllocError>
        ensures { IfOk result (λ at. GivesSolution shows self.now at.items) };

    /// The columns of the basis, one for each row. Error: memory ran out.
    fn basis(&self, alloc: Global) -> Result<Vec<u32>, AllocError>
        ensures { IfOk result (λ basis. GivesBasis shows self.now basis.items) };

    /// The dual at an end as infeasible, one number for each row, from the program's right sides. Error:
    /// memory ran out.
    fn dual(&self, alloc: Global, right: &[i128]) -> Result<Vec<Frac>, AllocError>
        requires { MayGiveDual shows self.now right.now }
        ensures { IfOk result (λ dual. GivesDual shows self.now right.now dual.items) };
}
