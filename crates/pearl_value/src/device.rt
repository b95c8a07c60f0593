// The devices of a plant.

use crate::kind::Kind;

/// Which way the texts of a terminal, or the values of a channel, go.
#[derive(Clone, Copy, PartialEq, Eq, Debug)]
pub enum Direction {
    In,
    Out,
    InOut,
}

/// A device, with its number from 1 to 99. Devices of two sorts may have the same number.
#[derive(Clone, Copy, PartialEq, Eq, Debug)]
pub enum Device {
    Interrupt { number: u8 },
    Terminal { number: u8, direction: Direction },
    /// Values of this kind come in.
    Input { number: u8, kind: Kind },
    /// Values of this kind go out.
    Output { number: u8, kind: Kind },
}
