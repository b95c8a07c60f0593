// What is known of the members of a list that stand before one.

use pearl_value::device::Device;
use pearl_value::kind::Kind;

/// Nothing need be known.
#[derive(Clone, Copy)]
pub struct Alone {}

/// How many of a routine's parameters are left.
#[derive(Clone, Copy)]
pub struct Parameters {
    pub left: u64,
}

/// The instruction of the last stated shape.
#[derive(Clone, Copy)]
pub struct Last {
    pub number: Option<u64>,
}

/// The device before.
#[derive(Clone, Copy)]
pub struct Before {
    pub device: Option<Device>,
}

/// How many slots are left for leaves.
#[derive(Clone, Copy)]
pub struct Room {
    pub left: u32,
}

/// The kind that each of them has.
#[derive(Clone, Copy)]
pub struct Wanted {
    pub kind: Kind,
}
