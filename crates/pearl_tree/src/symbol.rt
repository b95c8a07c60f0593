// The symbols. The code of a symbol is its position, counted from 0, in the order in which the language lists them.

ghost use Rattle.std.specs.Prelude.{◌≡◌, ◌<◌, map};
ghost use Rattle.pearl_tree.specs.Symbols as spec;

/// `(`
pub const LEFT_ROUND: u8 = 0;
/// `)`
pub const RIGHT_ROUND: u8 = 1;
/// `[`
pub const LEFT_SQUARE: u8 = 2;
/// `]`
pub const RIGHT_SQUARE: u8 = 3;
/// `,`
pub const COMMA: u8 = 4;
/// `;`
pub const SEMICOLON: u8 = 5;
/// `:`
pub const COLON: u8 = 6;
/// `.`
pub const PERIOD: u8 = 7;
/// `:=`; `=` means the same
pub const BECOMES: u8 = 8;
/// `=`, with the meaning of `:=`
pub const EQUALS_SIGN: u8 = 9;
/// `==`
pub const EQUAL: u8 = 10;
/// `/=`
pub const UNEQUAL: u8 = 11;
/// `<`
pub const LESS: u8 = 12;
/// `>`
pub const GREATER: u8 = 13;
/// `<=`
pub const AT_MOST: u8 = 14;
/// `>=`
pub const AT_LEAST: u8 = 15;
/// `><`
pub const CONCATENATE: u8 = 16;
/// `<>`
pub const ROTATE: u8 = 17;
/// `+`
pub const PLUS: u8 = 18;
/// `-`
pub const MINUS: u8 = 19;
/// `*`
pub const TIMES: u8 = 20;
/// `//`
pub const DIVIDE: u8 = 21;
/// `**`
pub const POWER: u8 = 22;

pub const SYMBOL_COUNT: usize = 23;

/// The symbols in the order of their codes.
pub static SYMBOLS: [&[u8]; SYMBOL_COUNT] = [
    b"(", b")", b"[", b"]", b",", b";", b":", b".", b":=", b"=", b"==", b"/=", b"<", b">", b"<=",
    b">=", b"><", b"<>", b"+", b"-", b"*", b"//", b"**",
];

fn symbols() -> &'static [&'static [u8]]
    ensures { map (λ text. text.now) result.now ≡ spec.symbol_texts }
{
    &SYMBOLS
}

/// The symbol of this code.
pub fn symbol_text(code: u8) -> &'static [u8]
    requires { code < spec.symbol_count }
    ensures { result.now ≡ spec.symbol_text code }
{
    symbols()[code as usize]
}
