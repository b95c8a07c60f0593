// What reading some tokens gave.

ghost use Rattle.std.specs.Prelude.{◌≡◌, ◌<◌, ◌+◌, ◌^◌, max, [], ◌∷◌, ◌++◌, IfOk, IfErr, OnOk};
ghost use Rattle.pearl_parse_expr.specs.declared.reading.Halt.{Halt};
ghost use Rattle.pearl_parse_expr.specs.Readings as spec;

use std::alloc::Global;

/// A part, the number of the token after it, and the number of the first token past which nothing of its kind goes that
/// begins where it does.
#[derive(Drop)]
pub struct Reading<T> {
    pub part: T,
    pub end: usize,
    pub stop: usize,
}

/// Why a part is not read.
#[derive(Drop)]
pub enum Halt {
    /// The number of the first token up to and with which nothing of this kind begins.
    Refused(usize),
    NoMemory,
}

impl<T: Drop> Reading<T> {
    /// The same part, with so many more tokens that stand behind it.
    pub fn past(self, tokens: usize) -> Reading<T>
        requires { self.end + tokens < 2 ^ 64 }
        ensures { result ≡ spec.past self tokens }
    {
        let end = self.end + tokens;
        Reading {
            part: self.part,
            end,
            stop: self.stop.max(end),
        }
    }

    /// The same part, stopped no earlier than at `stop`.
    pub fn no_earlier(self, stop: usize) -> Reading<T>
        ensures { result ≡ spec.no_earlier self stop }
    {
        Reading {
            part: self.part,
            end: self.end,
            stop: self.stop.max(stop),
        }
    }

    /// What `change` makes of the part, read from the same tokens.
    pub fn map<U, F: FnOnce(T) -> U>(self, change: F) -> Reading<U>
        requires { F.pre change self.part }
        ensures part { F.post change self.part result.part }
        ensures end { result.end ≡ self.end }
        ensures stop { result.stop ≡ self.stop }
    {
        let Reading { part, end, stop } = self;
        Reading {
            part: change(part),
            end,
            stop,
        }
    }

    /// The same part in a box.
    pub fn boxed(self, alloc: Global) -> Result<Reading<Box<T>>, Halt>
        ensures part { IfOk result (λ reading. reading.part.value ≡ self.part) }
        ensures end { IfOk result (λ reading. reading.end ≡ self.end) }
        ensures stop { IfOk result (λ reading. reading.stop ≡ self.stop) }
        ensures fault { IfErr result (λ halt. halt ≡ Halt.NoMemory) }
    {
        let Reading { part, end, stop } = self;
        Ok(Reading {
            part: boxed(alloc, part)?,
            end,
            stop,
        })
    }

    /// What is read where a further part is not: this one, stopped no earlier than the further one is refused.
    pub fn ended(self, halt: Halt) -> Result<Reading<T>, Halt>
        ensures value { result ≡ spec.ended self halt }
        ensures memory { IfErr result (λ halt. halt ≡ Halt.NoMemory) }
    {
        match halt {
            Halt::Refused(at) => Ok(Reading {
                part: self.part,
                end: self.end,
                stop: self.stop.max(at),
            }),
            Halt::NoMemory => Err(Halt::NoMemory),
        }
    }
}

// A list grows by the parts that are read where it ends. It is stopped at the last one of the stop with which it begins
// and the stops of its parts.
impl<T: Drop> Reading<Vec<T>> {
    /// A list that has no part yet, behind what was stopped at `stop`.
    pub fn none(alloc: Global, end: usize, stop: usize) -> Reading<Vec<T>>
        ensures { spec.IsList [] end stop result }
    {
        Reading {
            part: Vec::new(alloc),
            end,
            stop,
        }
    }

    /// A list with its first part.
    pub fn one(alloc: Global, first: Reading<T>) -> Result<Reading<Vec<T>>, Halt>
        ensures list { IfOk result (λ list. spec.IsList (first.part ∷ []) first.end first.stop list) }
        ensures fault { IfErr result (λ halt. halt ≡ Halt.NoMemory) }
    {
        let mut part = Vec::new(alloc);
        append(&mut part, first.part)?;
        Ok(Reading {
            part,
            end: first.end,
            stop: first.stop,
        })
    }

    /// Adds the part that was read where the list ends.
    pub fn add(&mut self, next: Reading<T>) -> Result<(), Halt>
        ensures added { OnOk result (spec.IsList (self.old.part.items ++ next.part ∷ []) next.end
            (max self.old.stop next.stop) self.new) }
        ensures fault { IfErr result (λ halt. halt ≡ Halt.NoMemory) }
    {
        append(&mut self.part, next.part)?;
        self.end = next.end;
        self.stop = self.stop.max(next.stop);
        Ok(())
    }
}

// Adds a part to a list.
fn append<T: Drop>(list: &mut Vec<T>, item: T) -> Result<(), Halt>
    ensures appended { OnOk result (list.new.items ≡ list.old.items ++ item ∷ []) }
    ensures fault { IfErr result (λ halt. halt ≡ Halt.NoMemory) }
{
    match list.push(item) {
        Ok(()) => Ok(()),
        Err(_) => Err(Halt::NoMemory),
    }
}

/// Puts a part into a box.
pub fn boxed<T: Drop>(alloc: Global, part: T) -> Result<Box<T>, Halt>
    ensures value { IfOk result (λ made. made.value ≡ part) }
    ensures fault { IfErr result (λ halt. halt ≡ Halt.NoMemory) }
{
    match Box::new(alloc, part) {
        Ok(made) => Ok(made),
        Err(_) => Err(Halt::NoMemory),
    }
}
