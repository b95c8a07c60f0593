// Which kinds are the same.

ghost use Rattle.std.specs.Prelude.{◌≡◌};
ghost use Rattle.pearl_check_expr.specs.Kinds as spec;

use pearl_value::kind::Kind;

/// Whether two kinds are the same.
pub fn is_kind(kind: Kind, other: Kind) -> bool
    ensures { result ≡ spec.is_kind kind other }
{
    match (kind, other) {
        (Kind::Fixed(len), Kind::Fixed(other)) => len == other,
        (Kind::Bits(len), Kind::Bits(other)) => len == other,
        (Kind::Chars(len), Kind::Chars(other)) => len == other,
        (Kind::Clock, Kind::Clock) => true,
        (Kind::Span, Kind::Span) => true,
        _ => false,
    }
}
