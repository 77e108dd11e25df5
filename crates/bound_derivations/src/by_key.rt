//! Tables read by key: the time of a rule is at place 0.

ghost use Rattle.std.specs.Prelude.{◌≡◌, is_some};
ghost use Rattle.size_bounds.specs.Tables.{stored_in};

use cert_types::ResultVariable;
use size_bounds::Table;

/// Whether a bound of a key is known.
pub fn is_known(table: &Table, key: ResultVariable) -> bool
    ensures { result ≡ is_some (stored_in table.now key.rule key.place) }
{
    table.stored(key).is_some()
}
