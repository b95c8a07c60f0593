// The table of words.

ghost use Rattle.std.specs.Prelude.{◌≡◌, ◌↔◌, ◌<◌, All, Any, IfSome, IsTrue, Some, None, map};
ghost use Rattle.pearl_tree.specs.Rising.{rises};
ghost use Rattle.pearl_tree.specs.Words as spec;

use crate::word_code::*;

/// A word and the code of its meaning.
#[derive(Clone, Copy, Debug)]
pub struct WordRow {
    pub text: &'static [u8],
    pub code: u8,
}

pub const WORD_COUNT: usize = 106;

/// How many meanings the words have.
pub const CODE_COUNT: usize = 98;

macro_rules! word_rows {
    ($($text:literal $code:ident;)*) => {
        [$(WordRow { text: $text, code: $code }),*]
    };
}

/// Every word of the language, in the order of a dictionary.
pub static WORDS: [WordRow; WORD_COUNT] = word_rows![
    b"ABS" ABS;
    b"ACTIVATE" ACTIVATE;
    b"AFTER" AFTER;
    b"ALL" ALL;
    b"ALPHIC" ALPHIC;
    b"ALT" ALT;
    b"AND" AND;
    b"AT" AT;
    b"BASIC" BASIC;
    b"BEGIN" BEGIN;
    b"BIT" BIT;
    b"BOLT" BOLT;
    b"BY" BY;
    b"CALL" CALL;
    b"CASE" CASE;
    b"CAT" CAT;
    b"CHAR" CHAR;
    b"CHARACTER" CHAR;
    b"CLOCK" CLOCK;
    b"CONTINUE" CONTINUE;
    b"CSHIFT" CSHIFT;
    b"DATION" DATION;
    b"DCL" DCL;
    b"DECLARE" DCL;
    b"DISABLE" DISABLE;
    b"DUR" DURATION;
    b"DURATION" DURATION;
    b"DURING" DURING;
    b"ELSE" ELSE;
    b"ENABLE" ENABLE;
    b"END" END;
    b"ENTER" ENTER;
    b"EQ" EQ;
    b"EXIT" EXIT;
    b"EXOR" EXOR;
    b"FIN" FIN;
    b"FIXED" FIXED;
    b"FOR" FOR;
    b"FREE" FREE;
    b"FROM" FROM;
    b"GE" GE;
    b"GET" GET;
    b"GLOBAL" GLOBAL;
    b"GT" GT;
    b"HRS" HRS;
    b"IDENT" IDENT;
    b"IDENTICAL" IDENT;
    b"IF" IF;
    b"IN" IN;
    b"INIT" INIT;
    b"INOUT" INOUT;
    b"INTERRUPT" INTERRUPT;
    b"INV" INV;
    b"IRPT" INTERRUPT;
    b"LE" LE;
    b"LEAVE" LEAVE;
    b"LENGTH" LENGTH;
    b"LT" LT;
    b"LWB" LWB;
    b"MAIN" MAIN;
    b"MIN" MIN;
    b"MODEND" MODEND;
    b"MODULE" MODULE;
    b"NE" NE;
    b"NOT" NOT;
    b"NOW" NOW;
    b"OR" OR;
    b"OUT" OUT;
    b"PRESET" PRESET;
    b"PREVENT" PREVENT;
    b"PRIO" PRIO;
    b"PRIORITY" PRIO;
    b"PROBLEM" PROBLEM;
    b"PROC" PROC;
    b"PROCEDURE" PROC;
    b"PUT" PUT;
    b"RELEASE" RELEASE;
    b"REM" REM;
    b"REPEAT" REPEAT;
    b"REQUEST" REQUEST;
    b"RESERVE" RESERVE;
    b"RESUME" RESUME;
    b"RETURN" RETURN;
    b"RETURNS" RETURNS;
    b"SEC" SEC;
    b"SEMA" SEMA;
    b"SEND" SEND;
    b"SHIFT" SHIFT;
    b"SIGN" SIGN;
    b"SPC" SPC;
    b"SPECIFY" SPC;
    b"STRUCT" STRUCT;
    b"SUSPEND" SUSPEND;
    b"SYSTEM" SYSTEM;
    b"TAKE" TAKE;
    b"TASK" TASK;
    b"TERMINATE" TERMINATE;
    b"THEN" THEN;
    b"TO" TO;
    b"TRIGGER" TRIGGER;
    b"TRY" TRY;
    b"TYPE" TYPE;
    b"UNTIL" UNTIL;
    b"UPB" UPB;
    b"WHEN" WHEN;
    b"WHILE" WHILE;
];

/// The table of words: exactly those of the language, the ones of the same meaning with the same code.
pub fn words() -> &'static [WordRow; WORD_COUNT]
    ensures rise { IsTrue (rises spec.text_before result.now) }
    ensures words { spec.AreTheWords result.now }
{
    &WORDS
}

/// The code of the word in rows whose texts rise strictly.
pub fn find_word(rows: &[WordRow], text: &[u8]) -> Option<u8>
    requires { IsTrue (rises spec.text_before rows.now) }
    ensures found { IfSome result (λ code. Any (λ row. (row.text.now ≡ text.now) × (row.code ≡ code)) rows.entry.now) }
    ensures only { All (λ row. row.text.now ≡ text.now → result ≡ Some row.code) rows.entry.now }
    ensures none { (result ≡ None) ↔ All (λ row. ¬ (row.text.now ≡ text.now)) rows.entry.now }
{
    for row in rows {
        if row.text == text {
            return Some(row.code);
        }
    }
    None
}

// The words in the order of their codes: of those that mean the same, the one that the grammar names.
static TEXTS: [&[u8]; CODE_COUNT] = [
    b"MODULE",
    b"MODEND",
    b"SYSTEM",
    b"PROBLEM",
    b"DCL",
    b"SPC",
    b"INV",
    b"INIT",
    b"PRESET",
    b"STRUCT",
    b"TYPE",
    b"LENGTH",
    b"FIXED",
    b"BIT",
    b"CHAR",
    b"CLOCK",
    b"DURATION",
    b"SEMA",
    b"INTERRUPT",
    b"DATION",
    b"IN",
    b"OUT",
    b"INOUT",
    b"ALPHIC",
    b"BASIC",
    b"TASK",
    b"PROC",
    b"MAIN",
    b"PRIO",
    b"IDENT",
    b"RETURNS",
    b"RETURN",
    b"BEGIN",
    b"END",
    b"IF",
    b"THEN",
    b"ELSE",
    b"FIN",
    b"CASE",
    b"ALT",
    b"FOR",
    b"FROM",
    b"BY",
    b"TO",
    b"WHILE",
    b"REPEAT",
    b"EXIT",
    b"CALL",
    b"ACTIVATE",
    b"TERMINATE",
    b"SUSPEND",
    b"CONTINUE",
    b"RESUME",
    b"PREVENT",
    b"AT",
    b"AFTER",
    b"ALL",
    b"UNTIL",
    b"DURING",
    b"WHEN",
    b"REQUEST",
    b"RELEASE",
    b"TRY",
    b"ENABLE",
    b"DISABLE",
    b"TRIGGER",
    b"GET",
    b"PUT",
    b"TAKE",
    b"SEND",
    b"NOW",
    b"REM",
    b"ABS",
    b"SIGN",
    b"EQ",
    b"NE",
    b"LT",
    b"GT",
    b"LE",
    b"GE",
    b"AND",
    b"OR",
    b"EXOR",
    b"NOT",
    b"CAT",
    b"CSHIFT",
    b"SHIFT",
    b"LWB",
    b"UPB",
    b"HRS",
    b"MIN",
    b"SEC",
    b"GLOBAL",
    b"BOLT",
    b"RESERVE",
    b"FREE",
    b"ENTER",
    b"LEAVE",
];

fn texts() -> &'static [&'static [u8]]
    ensures { map (λ text. text.now) result.now ≡ spec.word_texts }
{
    &TEXTS
}

/// The word of this code: of those that mean the same, the one that the grammar names.
pub fn word_text(code: u8) -> &'static [u8]
    requires { code < spec.code_count }
    ensures { result.now ≡ spec.word_text code }
{
    texts()[code as usize]
}
