//! Whether pairs may be listed by a sparse row.

ghost use Rattle.std.specs.Prelude.{◌≡◌, ◌≢◌, ℕ, pos, IsTrue, Some};
ghost use Rattle.frac128.specs.declared.frac.Frac.{Frac};
ghost use Rattle.sparse_merge.specs.Listing.{Ascends, listed};
ghost use Rattle.sparse_rows.specs.Rows.{column_of, IsRow};

use frac128::Frac;

// Whether the columns of pairs ascend strictly from one on, and no fraction is 0.
fn is_row_from(pairs: &[(u32, Frac)], from: u64) -> bool
    ensures ascends { IsTrue result → Ascends column_of (λ _. Unit {0}) from pairs.now }
    ensures nonzero { IsTrue result → (j : ℕ) (x : ℕ × Frac) → listed column_of pairs.now j ≡ Some x
        → x.1.num ≢ pos 0 }
{
    let [(col, fraction), rest @ ..] = pairs else {
        return true;
    };
    let col = u64::from(*col);
    if col < from || fraction.num == 0 {
        return false;
    }
    is_row_from(rest, col + 1)
}

/// Whether pairs are a valid list for a sparse row.
pub(crate) fn is_row(pairs: &[(u32, Frac)]) -> bool
    ensures { IsTrue result → IsRow pairs.now }
{
    is_row_from(pairs, 0)
}
