//! Whether a bound is so much less than another one that it replaces it.

use signed_bounds::Signed;
use simpler_bounds::{degree, judged_value};

/// By how much a bound has to be less than another one to replace it.
#[derive(Clone, Copy, Debug, PartialEq, Eq)]
pub(crate) enum Margin {
    /// Its value is less.
    Any,
    /// Its value is less by more than a tenth, or isn't greater, and its degree is lower.
    Clear,
}

/// How bounds are compared: at which start values, and by which margin.
#[derive(Clone, Copy)]
pub(crate) struct Comparison<'a> {
    pub(crate) starts: &'a [Vec<i128>],
    pub(crate) margin: Margin,
}

/// The degree of a bound, and the sum of its values at all lists of start values.
#[derive(Clone, Copy)]
pub(crate) struct Measure {
    pub(crate) degree: u32,
    pub(crate) value: u128,
}

impl Measure {
    /// That of a bound of 0.
    pub(crate) fn zero() -> Measure {
        Measure {
            degree: 0,
            value: 0,
        }
    }

    /// That of a bound.
    pub(crate) fn of_bound(bound: &Signed, comparison: Comparison<'_>) -> Measure {
        let mut value = 0u128;
        for start in comparison.starts {
            value = value.saturating_add(judged_value(bound, start));
        }
        Measure {
            degree: degree(bound),
            value,
        }
    }

    /// That of the sum of two bounds.
    pub(crate) fn plus(self, other: Measure) -> Measure {
        Measure {
            degree: self.degree.max(other.degree),
            value: self.value.saturating_add(other.value),
        }
    }

    /// Whether a bound of this measure replaces one of another measure.
    pub(crate) fn replaces(self, other: Measure, margin: Margin) -> bool {
        match margin {
            Margin::Any => self.value < other.value,
            Margin::Clear => {
                self.value <= other.value
                    && (self.degree < other.degree || self.is_less_by_a_tenth(other))
            }
        }
    }

    // Whether the value is less than another one by more than a tenth of that.
    fn is_less_by_a_tenth(self, other: Measure) -> bool {
        let tenth = other.value.checked_div(10).unwrap_or(0);
        self.value < other.value.saturating_sub(tenth)
    }
}

/// Whether a bound is linear in the start values, or a constant.
pub(crate) fn is_linear(bound: &Signed) -> bool {
    degree(bound) <= 1
}
