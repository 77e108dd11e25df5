//! Laws of bounds inside another text.

ghost use Rattle.bound_text.specs.WorkedInside.{InnerBoundsAreRead};
ghost use Rattle.bound_text.specs.WorkedLimits.{LimitsOfTextsAreMet};

/// Inside another text a bound is read by the same steps as alone, so the result is its tree or its first fault. The
/// one difference is the position of `TooDeep`: a part that is one level too deep is refused at its own first byte, and
/// not at the token that makes it so deep. Worked values show where that is in small texts.
pub fn inner_bounds_are_read()
    ensures { InnerBoundsAreRead }
{}

/// The limits of texts: bounds of as many nodes and levels, and of as large a base, as a text may have are within the
/// limits, and those of one more aren't. Its contract is these values; it does nothing.
pub fn limits_of_texts_are_met()
    ensures { LimitsOfTextsAreMet }
{}
