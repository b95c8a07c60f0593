// What the texts of values keep.

ghost use Rattle.pearl_format.specs.BitDigits.{WritesGroups};

/// A BIT is written from its first truth value on, so many of them to a digit.
pub fn a_bit_is_written_from_the_first_on()
    ensures { WritesGroups }
{}
