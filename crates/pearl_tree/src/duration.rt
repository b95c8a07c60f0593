// How long duration literals are.

ghost use Rattle.std.specs.Prelude.{◌≡◌, ◌<◌, ◌^◌};
ghost use Rattle.pearl_tree.specs.Durations as spec;

use crate::literal::{Duration, Secs};
use crate::name::Number;

impl Secs {
    /// In milliseconds.
    pub fn milliseconds(&self) -> u128
        ensures value { result ≡ spec.milliseconds_of_secs self.now }
        ensures small { result < 2 ^ 80 }
    {
        match self {
            Secs::Number(number) => 1000 * u128::from(number.value),
            Secs::Decimal {
                whole,
                thousandths,
                ..
            } => 1000 * u128::from(*whole) + u128::from(*thousandths),
        }
    }
}

fn milliseconds_of_seconds(seconds: &Option<Secs>) -> u128
    ensures value { result ≡ spec.milliseconds_of_seconds seconds.now }
    ensures small { result < 2 ^ 80 }
{
    match seconds {
        None => 0,
        Some(seconds) => seconds.milliseconds(),
    }
}

fn milliseconds_of_minutes(minutes: &Option<Number>) -> u128
    ensures value { result ≡ spec.milliseconds_of_minutes minutes.now }
    ensures small { result < 2 ^ 80 }
{
    match minutes {
        None => 0,
        Some(minutes) => 60_000 * u128::from(minutes.value),
    }
}

impl Duration {
    /// In milliseconds. No sum of three numbers below 2^64 is too large.
    pub fn milliseconds(&self) -> u128
        ensures { result ≡ spec.milliseconds_of self.now }
    {
        match self {
            Duration::Hours {
                hours,
                minutes,
                seconds,
                ..
            } => {
                3_600_000 * u128::from(hours.value)
                    + milliseconds_of_minutes(minutes)
                    + milliseconds_of_seconds(seconds)
            }
            Duration::Minutes {
                minutes,
                seconds,
                ..
            } => 60_000 * u128::from(minutes.value) + milliseconds_of_seconds(seconds),
            Duration::Seconds { seconds, .. } => seconds.milliseconds(),
        }
    }

    /// The place of its first token.
    pub fn place(&self) -> u32
        ensures { result ≡ spec.place_of_duration self.now }
    {
        match self {
            Duration::Hours { place, .. } => *place,
            Duration::Minutes { place, .. } => *place,
            Duration::Seconds { place, .. } => *place,
        }
    }
}
