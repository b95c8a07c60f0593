// Appending fields to bytes.

ghost use Rattle.std.specs.Prelude.{◌≡◌, ◌++◌, ◌≤◌, ◌<◌, OnOk};
ghost use Rattle.pearl_fields.specs.Codec.{digits, number_bytes, room, zigzag};

use std::alloc::AllocError;

#[tactic(auto, using(crate::proofs::Numbers::digits_step))]
fn put_digits(out: &mut Vec<u8>, k: u8, value: u64) -> Result<(), AllocError>
    requires few { k ≤ 8 }
    requires below { value < room k }
    ensures { OnOk result (out.new.items ≡ out.old.items ++ digits k value) }
{
    if value < 128 {
        out.push(value as u8)?;
        return Ok(());
    }
    out.push((value % 128) as u8 + 128)?;
    put_digits(out, k - 1, value / 128)?;
    Ok(())
}

/// Appends a number in its shortest spelling.
#[tactic(auto, using(crate::proofs::Numbers::digits_step))]
pub fn put_number(out: &mut Vec<u8>, value: u64) -> Result<(), AllocError>
    ensures { OnOk result (out.new.items ≡ out.old.items ++ number_bytes value) }
{
    if value < 128 {
        out.push(value as u8)?;
        return Ok(());
    }
    out.push((value % 128) as u8 + 128)?;
    put_digits(out, 8, value / 128)?;
    Ok(())
}

/// Appends a signed number.
pub fn put_signed(out: &mut Vec<u8>, value: i64) -> Result<(), AllocError>
    ensures { OnOk result (out.new.items ≡ out.old.items ++ number_bytes (zigzag value)) }
{
    put_number(out, zigzag_of(value))?;
    Ok(())
}

fn zigzag_of(value: i64) -> u64
    ensures { result ≡ zigzag value }
{
    if value >= 0 {
        2 * (value as u64)
    } else {
        2 * (-(value + 1) as u64) + 1
    }
}
