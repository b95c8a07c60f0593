// Counts that are cut off at 2^31.

ghost use Rattle.std.specs.Prelude.{◌≡◌, ◌+◌};
ghost use Rattle.pearl_names.specs.Counts as spec;

const LIMIT: u64 = 1 << 31;

pub(crate) fn cut(n: u64) -> u32
    ensures { result ≡ spec.cut n }
{
    if n < LIMIT { n as u32 } else { LIMIT as u32 }
}

pub(crate) fn cut_sum(a: u32, b: u32) -> u32
    ensures { result ≡ spec.cut (a + b) }
{
    cut(u64::from(a) + u64::from(b))
}
