//! Laws of the texts of sections, and worked values.

ghost use Rattle.section_writer.specs.RoundTrips.{TextsAreReadBack};
ghost use Rattle.section_writer.specs.Worked.{WorkedValues};

/// Worked values, on both sides: the texts of small sections, and which sections are within the limits. It has no code:
/// its contract is the law.
pub fn worked_values_hold()
    ensures { WorkedValues }
{}

/// Of a valid program with fewer than 2^32 symbols, the text of each section within the limits is read as that section.
/// It has no code: its contract is the law.
pub fn texts_are_read_back()
    ensures { TextsAreReadBack }
{}
