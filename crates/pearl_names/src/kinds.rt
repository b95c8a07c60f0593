// Which kinds are among some slots: what is needed to know whether a constant fits all of them.

ghost use Rattle.std.specs.Prelude.{◌≡◌};
ghost use Rattle.pearl_names.specs.Kinds as spec;

use pearl_value::kind::Kind;

/// The least length of FIXED, BIT and CHAR among some kinds, and whether CLOCK and DURATION are among them.
#[derive(Clone, Copy, PartialEq, Eq, Debug)]
pub struct Kinds {
    pub fixed: Option<u8>,
    pub bits: Option<u8>,
    pub chars: Option<u8>,
    pub clock: bool,
    pub span: bool,
}

/// No kind is among them.
pub const NO_KINDS: Kinds = Kinds {
    fixed: None,
    bits: None,
    chars: None,
    clock: false,
    span: false,
};

/// The one kind alone.
pub fn one_kind(kind: Kind) -> Kinds
    ensures { result ≡ spec.one_kind kind }
{
    match kind {
        Kind::Fixed(len) => Kinds {
            fixed: Some(len),
            ..NO_KINDS
        },
        Kind::Bits(len) => Kinds {
            bits: Some(len),
            ..NO_KINDS
        },
        Kind::Chars(len) => Kinds {
            chars: Some(len),
            ..NO_KINDS
        },
        Kind::Clock => Kinds {
            clock: true,
            ..NO_KINDS
        },
        Kind::Span => Kinds {
            span: true,
            ..NO_KINDS
        },
    }
}

fn least(a: Option<u8>, b: Option<u8>) -> Option<u8>
    ensures { result ≡ spec.least a b }
{
    match a {
        Some(one) => match b {
            Some(other) => Some(u8::min(one, other)),
            None => a,
        },
        None => b,
    }
}

/// The kinds that are among the ones or among the others.
pub fn joined_kinds(a: Kinds, b: Kinds) -> Kinds
    ensures { result ≡ spec.joined_kinds a b }
{
    Kinds {
        fixed: least(a.fixed, b.fixed),
        bits: least(a.bits, b.bits),
        chars: least(a.chars, b.chars),
        clock: a.clock || b.clock,
        span: a.span || b.span,
    }
}

/// Whether a kind is among them.
pub fn has_kind(kinds: Kinds) -> bool
    ensures { result ≡ spec.has_kind kinds }
{
    kinds.fixed.is_some()
        || kinds.bits.is_some()
        || kinds.chars.is_some()
        || kinds.clock
        || kinds.span
}
