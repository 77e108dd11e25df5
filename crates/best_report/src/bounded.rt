//! Whether a report lacks a bound.

ghost use Rattle.std.specs.Prelude.{◌≡◌, map};
ghost use Rattle.best_report.specs.Lines.{line_of, is_bounded, is_bounded_line};

use crate::line::Line;
use crate::subject::Subject;

/// Whether every rule has a time, every rule with a cost a bound on it, and all steps together have one.
pub fn is_bounded(lines: &[Line]) -> bool
    ensures { result ≡ is_bounded (map line_of lines.now) }
{
    for line in lines {
        if !is_bounded_line(line) {
            return false;
        }
    }
    true
}

// Whether the line isn't missing a bound on a rule, or on all steps.
fn is_bounded_line(line: &Line) -> bool
    ensures { result ≡ is_bounded_line (line_of line.now) }
{
    match line.subject {
        Subject::Time(_) => line.bound.is_some(),
        Subject::Cost(_) => line.bound.is_some(),
        Subject::Total => line.bound.is_some(),
        Subject::Above(_, _) => true,
        Subject::Below(_, _) => true,
    }
}
