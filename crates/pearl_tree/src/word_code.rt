// The codes of the words, one for each meaning, numbered from 0 as the language lists its words. Words with the same
// meaning share a code, which has the name of the word that the grammar uses.

pub const MODULE: u8 = 0;

pub const MODEND: u8 = 1;

pub const SYSTEM: u8 = 2;

pub const PROBLEM: u8 = 3;
/// Also DECLARE.
pub const DCL: u8 = 4;
/// Also SPECIFY.
pub const SPC: u8 = 5;

pub const INV: u8 = 6;

pub const INIT: u8 = 7;

pub const PRESET: u8 = 8;

pub const STRUCT: u8 = 9;

pub const TYPE: u8 = 10;

pub const LENGTH: u8 = 11;

pub const FIXED: u8 = 12;

pub const BIT: u8 = 13;
/// Also CHARACTER.
pub const CHAR: u8 = 14;

pub const CLOCK: u8 = 15;
/// Also DUR.
pub const DURATION: u8 = 16;

pub const SEMA: u8 = 17;
/// Also IRPT.
pub const INTERRUPT: u8 = 18;

pub const DATION: u8 = 19;

pub const IN: u8 = 20;

pub const OUT: u8 = 21;

pub const INOUT: u8 = 22;

pub const ALPHIC: u8 = 23;

pub const BASIC: u8 = 24;

pub const TASK: u8 = 25;
/// Also PROCEDURE.
pub const PROC: u8 = 26;

pub const MAIN: u8 = 27;
/// Also PRIORITY.
pub const PRIO: u8 = 28;
/// Also IDENTICAL.
pub const IDENT: u8 = 29;

pub const RETURNS: u8 = 30;

pub const RETURN: u8 = 31;

pub const BEGIN: u8 = 32;

pub const END: u8 = 33;

pub const IF: u8 = 34;

pub const THEN: u8 = 35;

pub const ELSE: u8 = 36;

pub const FIN: u8 = 37;

pub const CASE: u8 = 38;

pub const ALT: u8 = 39;

pub const FOR: u8 = 40;

pub const FROM: u8 = 41;

pub const BY: u8 = 42;

pub const TO: u8 = 43;

pub const WHILE: u8 = 44;

pub const REPEAT: u8 = 45;

pub const EXIT: u8 = 46;

pub const CALL: u8 = 47;

pub const ACTIVATE: u8 = 48;

pub const TERMINATE: u8 = 49;

pub const SUSPEND: u8 = 50;

pub const CONTINUE: u8 = 51;

pub const RESUME: u8 = 52;

pub const PREVENT: u8 = 53;

pub const AT: u8 = 54;

pub const AFTER: u8 = 55;

pub const ALL: u8 = 56;

pub const UNTIL: u8 = 57;

pub const DURING: u8 = 58;

pub const WHEN: u8 = 59;

pub const REQUEST: u8 = 60;

pub const RELEASE: u8 = 61;

pub const TRY: u8 = 62;

pub const ENABLE: u8 = 63;

pub const DISABLE: u8 = 64;

pub const TRIGGER: u8 = 65;

pub const GET: u8 = 66;

pub const PUT: u8 = 67;

pub const TAKE: u8 = 68;

pub const SEND: u8 = 69;

pub const NOW: u8 = 70;

pub const REM: u8 = 71;

pub const ABS: u8 = 72;

pub const SIGN: u8 = 73;

pub const EQ: u8 = 74;

pub const NE: u8 = 75;

pub const LT: u8 = 76;

pub const GT: u8 = 77;

pub const LE: u8 = 78;

pub const GE: u8 = 79;

pub const AND: u8 = 80;

pub const OR: u8 = 81;

pub const EXOR: u8 = 82;

pub const NOT: u8 = 83;

pub const CAT: u8 = 84;

pub const CSHIFT: u8 = 85;

pub const SHIFT: u8 = 86;

pub const LWB: u8 = 87;

pub const UPB: u8 = 88;

pub const HRS: u8 = 89;

pub const MIN: u8 = 90;

pub const SEC: u8 = 91;

pub const GLOBAL: u8 = 92;

pub const BOLT: u8 = 93;

pub const RESERVE: u8 = 94;

pub const FREE: u8 = 95;

pub const ENTER: u8 = 96;

pub const LEAVE: u8 = 97;
