// Reading from left to right, field by field. After an error nothing is said of the bytes that are left.

ghost use Rattle.std.specs.Prelude.{◌≡◌, ◌<◌, ◌≤◌, ◌≤ℤ◌, ℕ, List, Bool, true, length, take, drop, IfOk};
ghost use Rattle.pearl_fields.specs.Codec.{Codec, byte, byte_in, number, number_in, signed_in, unzigzag, exact_read, more_read, number_read, room};
ghost use Rattle.pearl_fields.specs.Reads.{Gives, Reads};

use crate::fault::ReadFault;
use std::marker::Model;

/// The bytes that are still to be read.
#[derive(Drop)]
pub struct Reader<'a> {
    rest: &'a [u8],
}

impl<'a> Model for Reader<'a> {
    ghost Value = { List ℕ };

    ghost view = { λ r. r.rest.now };
}

impl<'a> Reader<'a> {
    /// All of these bytes.
    pub fn new(bytes: &'a [u8]) -> Reader<'a>
        ensures { result ≡ bytes.now }
    {
        Reader { rest: bytes }
    }

    /// How many bytes are left.
    pub fn left(&self) -> usize
        ensures { result ≡ length self.now }
    {
        self.rest.len()
    }

    /// The next bytes, so many, which are then read.
    pub fn take(&mut self, count: usize) -> &'a [u8]
        requires { count ≤ length self.old }
        ensures taken { result.now ≡ take count self.old }
        ensures left { self.new ≡ drop count self.old }
    {
        let taken = &self.rest[..count];
        self.rest = &self.rest[count..];
        taken
    }

    /// Any byte.
    pub fn byte(&mut self) -> Result<u8, ReadFault>
        ensures { Reads (byte (λ b. true)) self.old self.new result }
    {
        match self.rest {
            [] => Err(ReadFault::Bad(0)),
            [byte, rest @ ..] => {
                let byte = *byte;
                self.rest = rest;
                Ok(byte)
            }
        }
    }

    /// A byte within bounds.
    pub fn byte_in(&mut self, low: u8, high: u8) -> Result<u8, ReadFault>
        ensures reads { Reads (byte_in low high) self.old self.new result }
        ensures within { IfOk result (λ b. (low ≤ b) × (b ≤ high)) }
    {
        match self.rest {
            [] => Err(ReadFault::Bad(0)),
            [byte, rest @ ..] => {
                let byte = *byte;
                if byte < low || byte > high {
                    return Err(ReadFault::Bad(self.rest.len()));
                }
                self.rest = rest;
                Ok(byte)
            }
        }
    }

    /// The bytes of a number behind its first one.
    #[tactic(auto, unfolding(crate::specs::Codec::more_read))]
    fn more(&mut self, field: usize, k: u8) -> Result<u64, ReadFault>
        requires { k ≤ 8 }
        ensures gives { Gives (more_read field k self.old) self.new result }
        ensures below { IfOk result (λ high. high < room k) }
    {
        match self.rest {
            [] => Err(ReadFault::Bad(0)),
            [byte, rest @ ..] => {
                let byte = *byte;
                if k == 0 {
                    if byte != 1 {
                        return Err(ReadFault::Bad(field));
                    }
                    self.rest = rest;
                    return Ok(1);
                }
                if byte < 128 {
                    if byte == 0 {
                        return Err(ReadFault::Bad(field));
                    }
                    self.rest = rest;
                    return Ok(u64::from(byte));
                }
                self.rest = rest;
                let high = self.more(field, k - 1)?;
                Ok(u64::from(byte % 128) + 128 * high)
            }
        }
    }

    /// Any number.
    #[tactic(auto, unfolding(crate::specs::Codec::number_read))]
    pub fn number(&mut self) -> Result<u64, ReadFault>
        ensures { Reads number self.old self.new result }
    {
        match self.rest {
            [] => Err(ReadFault::Bad(0)),
            [byte, rest @ ..] => {
                let byte = *byte;
                let field = self.rest.len();
                self.rest = rest;
                if byte < 128 {
                    return Ok(u64::from(byte));
                }
                let high = self.more(field, 8)?;
                Ok(u64::from(byte % 128) + 128 * high)
            }
        }
    }

    /// A number within bounds.
    #[tactic(auto, unfolding(crate::specs::Codec::number_in_read))]
    pub fn number_in(&mut self, low: u64, high: u64) -> Result<u64, ReadFault>
        ensures reads { Reads (number_in low high) self.old self.new result }
        ensures within { IfOk result (λ n. (low ≤ n) × (n ≤ high)) }
    {
        let left = self.rest.len();
        let number = self.number()?;
        if number < low || number > high {
            return Err(ReadFault::Bad(left));
        }
        Ok(number)
    }

    /// A signed number within bounds.
    #[tactic(auto, unfolding(crate::specs::Codec::signed_read))]
    pub fn signed_in(&mut self, low: i64, high: i64) -> Result<i64, ReadFault>
        ensures reads { Reads (signed_in low high) self.old self.new result }
        ensures within { IfOk result (λ n. (low ≤ℤ n) × (n ≤ℤ high)) }
    {
        let left = self.rest.len();
        let number = signed_of(self.number()?);
        if number < low || number > high {
            return Err(ReadFault::Bad(left));
        }
        Ok(number)
    }

    /// These bytes, as one field.
    #[tactic(auto, unfolding(crate::specs::Codec::exact_read))]
    pub fn exactly(&mut self, field: usize, wanted: &[u8]) -> Result<(), ReadFault>
        ensures { Gives (exact_read field wanted.now self.old) self.new result }
    {
        match wanted {
            [] => Ok(()),
            [first, others @ ..] => match self.rest {
                [] => Err(ReadFault::Bad(0)),
                [byte, rest @ ..] => {
                    if *byte != *first {
                        return Err(ReadFault::Bad(field));
                    }
                    self.rest = rest;
                    self.exactly(field, others)
                }
            },
        }
    }
}

fn signed_of(number: u64) -> i64
    ensures { result ≡ unzigzag number }
{
    let half = (number / 2) as i64;
    if number % 2 == 0 { half } else { -half - 1 }
}
