//! Checks on numbers of rules and of places, for the shapes of gaps and of nodes.

ghost use Rattle.std.specs.Prelude.{◌≡◌, ◌↔◌, IsTrue};
ghost use Rattle.std.specs.List.{AllByRecursion};
ghost use Rattle.farkas_cert.specs.model.Programs.{arity_of};
ghost use Rattle.its_model.specs.Views.{program_of};
ghost use Rattle.cert_types.specs.cert_rules.AcceptsPlain.{IsRule};
ghost use Rattle.cert_types.specs.cert_rules.Numbers.{IsAscending};

use its_model::Program;

/// Whether each number is less than the next.
pub fn ascends(numbers: &[u32]) -> bool
    ensures { IsTrue result ↔ IsAscending numbers.now }
{
    for i in 1..numbers.len() {
        if numbers[i - 1] >= numbers[i] {
            return false;
        }
    }
    true
}

/// Whether the number is that of a rule.
pub fn is_rule(p: &Program, number: u32) -> bool
    ensures { IsTrue result ↔ IsRule (program_of p.now) number }
{
    if number == 0 || number as usize > p.rules.len() {
        return false;
    }
    true
}

/// Whether the numbers are those of rules.
pub fn are_rules(p: &Program, numbers: &[u32]) -> bool
    ensures { IsTrue result ↔ AllByRecursion (IsRule (program_of p.now)) numbers.now }
{
    for number in numbers {
        let fits = is_rule(p, *number);
        if !fits {
            return false;
        }
    }
    true
}

/// How many places a symbol has; 0 if there is no such symbol.
pub fn arity_at(p: &Program, symbol: u32) -> u32
    ensures { result ≡ arity_of (program_of p.now) symbol }
{
    match p.symbols.get(symbol as usize) {
        Some(s) => s.arity,
        None => 0,
    }
}
