// Which duration literals are too long.

ghost use Rattle.std.specs.Prelude.{◌≡◌};
ghost use Rattle.pearl_names.specs.Durations as spec;

use pearl_tree::literal::Duration;

/// The greatest number of milliseconds of a DURATION.
const LONGEST: u128 = 1 << 40;

/// Whether a duration is above 2^40 milliseconds.
pub fn is_too_long(duration: &Duration) -> bool
    ensures { result ≡ spec.is_too_long duration.now }
{
    duration.milliseconds() > LONGEST
}
