// The table of opcodes.

ghost use Rattle.std.specs.Prelude.{◌≡◌, ◌↔◌, All, Contains, IfSome, IsTrue, None, Some};
ghost use Rattle.pearl_instructions.specs.declared.instr.Instr.{Instr};
ghost use Rattle.pearl_object.specs.CodeRows.{rises, AreTheCodes, HasItsForm};
ghost use Rattle.pearl_object.specs.Columns.{ColumnsAgree};

/// An opcode, its name, and a letter for each of its operands: `c` a cell, `n` a count, `v` a leaf, `i` an instruction,
/// `p` a procedure, `t` a task, `s` a semaphore, `d` a device and `f` a format, which are numbers; `I` and `S` lists of `i`
/// and `s`; `k` a kind, `L` a literal, `x` bounds, `T` a trap; `a`, `b` and `e` when something is to happen in Activate,
/// Continue and Resume, `r` a repetition, `q` whether there is a priority.
#[derive(Clone, Copy, Debug)]
pub struct CodeRow {
    pub opcode: u8,
    pub name: &'static [u8],
    pub operands: &'static [u8],
}

pub const CODE_COUNT: usize = 73;

macro_rules! code_rows {
    ($($opcode:literal $name:literal $operands:literal;)*) => {
        [$(CodeRow { opcode: $opcode, name: $name, operands: $operands }),*]
    };
}

/// Every opcode, in order.
pub static CODES: [CodeRow; CODE_COUNT] = code_rows![
    0 b"Const" b"L";
    1 b"Load" b"c";
    2 b"Store" b"c";
    3 b"Fill" b"cnk";
    4 b"Drop" b"";
    5 b"Conv" b"k";
    6 b"Index" b"x";
    7 b"LoadAt" b"cn";
    8 b"StoreAt" b"cn";
    9 b"Read" b"v";
    10 b"Write" b"v";
    11 b"ReadAt" b"v";
    12 b"WriteAt" b"v";
    13 b"RefSlot" b"v";
    14 b"RefSlotAt" b"v";
    15 b"RefCell" b"c";
    16 b"RefCellAt" b"cn";
    17 b"ReadRef" b"";
    18 b"WriteRef" b"";
    19 b"Jump" b"i";
    20 b"JumpZero" b"i";
    21 b"Case" b"I";
    22 b"Turn" b"";
    23 b"Call" b"p";
    24 b"Return" b"";
    25 b"End" b"";
    26 b"Trap" b"T";
    27 b"Within" b"c";
    28 b"Advance" b"ci";
    29 b"NonZero" b"";
    30 b"Plus" b"";
    31 b"Minus" b"";
    32 b"Abs" b"";
    33 b"Sign" b"";
    34 b"Not" b"";
    35 b"Pow" b"";
    36 b"Mul" b"";
    37 b"Div" b"";
    38 b"Rem" b"";
    39 b"Cat" b"";
    40 b"Add" b"";
    41 b"Sub" b"";
    42 b"Cshift" b"";
    43 b"Shift" b"";
    44 b"Lt" b"";
    45 b"Gt" b"";
    46 b"Le" b"";
    47 b"Ge" b"";
    48 b"Eq" b"";
    49 b"Ne" b"";
    50 b"And" b"";
    51 b"Or" b"";
    52 b"Exor" b"";
    53 b"Now" b"";
    54 b"Request" b"S";
    55 b"Release" b"S";
    56 b"Try" b"s";
    57 b"Activate" b"tarq";
    58 b"Continue" b"tb";
    59 b"Resume" b"e";
    60 b"Suspend" b"t";
    61 b"Terminate" b"t";
    62 b"Prevent" b"t";
    63 b"SuspendOwn" b"";
    64 b"TerminateOwn" b"";
    65 b"PreventOwn" b"";
    66 b"Enable" b"d";
    67 b"Disable" b"d";
    68 b"Trigger" b"d";
    69 b"Put" b"df";
    70 b"Get" b"dfc";
    71 b"Take" b"d";
    72 b"Send" b"d";
];

/// The table of opcodes.
pub fn codes() -> &'static [CodeRow; CODE_COUNT]
    ensures rise { IsTrue (rises result.now) }
    ensures codes { AreTheCodes result.now }
{
    &CODES
}

/// The row of an opcode in rows whose opcodes rise strictly.
pub fn find_code(rows: &[CodeRow], opcode: u8) -> Option<CodeRow>
    requires { IsTrue (rises rows.now) }
    ensures found { IfSome result (λ row. Contains rows.entry.now row × (row.opcode ≡ opcode)) }
    ensures only { All (λ row. row.opcode ≡ opcode → result ≡ Some row) rows.entry.now }
    ensures none { (result ≡ None) ↔ All (λ row. ¬ (row.opcode ≡ opcode)) rows.entry.now }
{
    for row in rows {
        if row.opcode == opcode {
            return Some(*row);
        }
    }
    None
}

/// Each instruction has the operands that its opcode's letters tell.
pub fn instructions_have_their_forms()
    ensures { (i : Instr) → HasItsForm i }
{}

/// Of the operands in an instruction's bytes and its listing, those that the validator's rules name: each where its letter
/// stands, and no other.
pub fn columns_agree()
    ensures { (i : Instr) → ColumnsAgree i }
{}
