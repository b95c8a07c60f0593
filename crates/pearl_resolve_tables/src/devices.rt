// The devices of a program.

ghost use Rattle.std.specs.Prelude.{◌≡◌, map, IfOk};
ghost use Rattle.pearl_resolve_tables.specs.Devices as spec;

use pearl_names::length::{Lengths, kind_of_basic};
use pearl_system::device::{Role, SpecifiedDevice};
use pearl_value::device::Device;
use pearl_value::kind::Kind;
use pearl_value::listing::Listing;
use std::alloc::{AllocError, Global};

/// A kind that is known, or FIXED(31) where a rule is broken in it.
pub fn kind_or_short(known: Option<Kind>) -> Kind
    ensures { result ≡ spec.kind_or_short known }
{
    match known {
        Some(kind) => kind,
        None => Kind::Fixed(31),
    }
}

fn device_of(lengths: &Lengths, specified: &SpecifiedDevice) -> Device
    ensures { result ≡ spec.device_of lengths.now specified.now }
{
    let number = specified.number;
    match &specified.role {
        Role::Interrupt => Device::Interrupt { number },
        Role::Terminal { direction } => Device::Terminal {
            number,
            direction: *direction,
        },
        Role::Input { basic } => Device::Input {
            number,
            kind: kind_or_short(kind_of_basic(lengths, basic)),
        },
        Role::Output { basic } => Device::Output {
            number,
            kind: kind_or_short(kind_of_basic(lengths, basic)),
        },
    }
}

/// The devices of a program, in the order of the list.
pub fn program_devices(
    alloc: Global,
    lengths: &Lengths,
    specified: &[SpecifiedDevice],
) -> Result<Listing<Device>, AllocError>
    ensures { IfOk result (λ made. made ≡ map (spec.device_of lengths.now) specified.now) }
{
    let mut made = Vec::new(alloc);
    made.reserve_exact(specified.len())?;
    for one in specified {
        made.push(device_of(lengths, one))?;
    }
    Ok(Listing::new(made))
}
