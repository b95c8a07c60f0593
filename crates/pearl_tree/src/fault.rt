// Broken static rules.

ghost use Rattle.pearl_tree.specs.Faults.{ListFaults};

/// That a static rule is broken, and the place where it is told. Faults are ordered by their places, then by their rules.
#[derive(Clone, Copy, PartialEq, Eq, PartialOrd, Ord, Debug)]
pub struct RuleFault {
    pub place: u32,
    pub rule: u8,
}

/// The faults that were found, in order and each once.
pub fn in_order(mut found: Vec<RuleFault>) -> Vec<RuleFault>
    ensures { ListFaults found.items result.items }
{
    found.sort_unstable();
    found.dedup();
    found
}
