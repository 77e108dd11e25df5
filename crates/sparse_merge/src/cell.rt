//! Cells, and the cell of a list at a place.

ghost use Rattle.std.specs.Prelude.{◌≡◌, ℕ};

/// A cell of a list: it has a place, and contents that only its own crate knows.
///
/// `place_of` is its place, and `fits` the condition that each cell of a list has to satisfy, for example that its
/// number isn't 0.
pub trait Cell: Copy {
    ghost place_of: { Self → ℕ };

    ghost fits: { Self → Type 0 };

    /// The place of the cell.
    fn place(&self) -> u32
        ensures { result ≡ place_of self.now };
}

/// A pair of a place and a value is a cell.
impl<V: Copy> Cell for (u32, V) {
    ghost place_of = { λ c. c.0 };

    ghost fits = { λ _. Unit {0} };

    fn place(&self) -> u32 {
        self.0
    }
}
