// A series of moments.

ghost use Rattle.std.specs.Prelude.{◌≡◌};
ghost use Rattle.pearl_rules.specs.Series.{comes_round, fires};

/// Moments that are a period apart, from a first one up to a last one, in milliseconds since the start. A period of 0
/// is none: then there is the first moment alone. A last moment of `u64::MAX` is none, since no moment is behind it.
/// Where the last moment is before the first one, there is no moment at all.
#[derive(Clone, Copy, PartialEq, Eq, Debug)]
pub struct Series {
    pub first: u64,
    pub period: u64,
    pub last: u64,
}

impl Series {
    /// Whether it fires at a moment.
    pub fn fires(self, t: u64) -> bool
        ensures { result ≡ fires self t }
    {
        self.first <= t && comes_round(self.period, t - self.first) && t <= self.last
    }
}

// Whether so much time is a whole number of periods.
fn comes_round(period: u64, time: u64) -> bool
    ensures { result ≡ comes_round period time }
{
    if period == 0 {
        time == 0
    } else {
        time % period == 0
    }
}
