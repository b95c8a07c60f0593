// The table of operators.

ghost use Rattle.std.specs.Prelude.{◌≡◌, ◌↔◌, All, Contains, IfSome, IsTrue, Some, None};
ghost use Rattle.pearl_tree.specs.Rising.{rises};
ghost use Rattle.pearl_tree.specs.Operators.{key_before, rank, HasKey};

use crate::family::*;
use crate::opcode::*;
use pearl_value::operator::Dyad;

/// What an operator gives for operands of these families. Operators of a smaller rank bind closer; those with one
/// operand have rank 0, and no left operand.
#[derive(Clone, Copy, PartialEq, Eq, Debug)]
pub struct OpRow {
    pub code: u8,
    pub rank: u8,
    pub left: u8,
    pub right: u8,
    pub result: u8,
}

pub const OP_COUNT: usize = 58;

macro_rules! op_rows {
    ($($code:ident $rank:literal $left:ident $right:ident $result:ident;)*) => {
        [$(OpRow { code: $code, rank: $rank, left: $left, right: $right, result: $result }),*]
    };
}

/// Every operator with each pair of families that it takes: its code, its rank, the families of its left and its
/// right operand, and that of its result.
pub static OPS: [OpRow; OP_COUNT] = op_rows![
    PLUS 0 ABSENT FIXED FIXED;
    PLUS 0 ABSENT DURATION DURATION;
    MINUS 0 ABSENT FIXED FIXED;
    MINUS 0 ABSENT DURATION DURATION;
    ABS 0 ABSENT FIXED FIXED;
    ABS 0 ABSENT DURATION DURATION;
    SIGN 0 ABSENT FIXED FIXED;
    SIGN 0 ABSENT DURATION FIXED;
    NOT 0 ABSENT BIT BIT;
    POW 1 FIXED FIXED FIXED;
    MUL 2 FIXED FIXED FIXED;
    MUL 2 FIXED DURATION DURATION;
    MUL 2 DURATION FIXED DURATION;
    DIV 2 FIXED FIXED FIXED;
    DIV 2 DURATION FIXED DURATION;
    DIV 2 DURATION DURATION FIXED;
    REM 2 FIXED FIXED FIXED;
    CAT 2 BIT BIT BIT;
    CAT 2 CHAR CHAR CHAR;
    ADD 3 FIXED FIXED FIXED;
    ADD 3 CLOCK DURATION CLOCK;
    ADD 3 DURATION CLOCK CLOCK;
    ADD 3 DURATION DURATION DURATION;
    SUB 3 FIXED FIXED FIXED;
    SUB 3 CLOCK CLOCK DURATION;
    SUB 3 CLOCK DURATION CLOCK;
    SUB 3 DURATION DURATION DURATION;
    CSHIFT 3 BIT FIXED BIT;
    SHIFT 3 BIT FIXED BIT;
    LT 4 FIXED FIXED BIT;
    LT 4 CHAR CHAR BIT;
    LT 4 CLOCK CLOCK BIT;
    LT 4 DURATION DURATION BIT;
    GT 4 FIXED FIXED BIT;
    GT 4 CHAR CHAR BIT;
    GT 4 CLOCK CLOCK BIT;
    GT 4 DURATION DURATION BIT;
    LE 4 FIXED FIXED BIT;
    LE 4 CHAR CHAR BIT;
    LE 4 CLOCK CLOCK BIT;
    LE 4 DURATION DURATION BIT;
    GE 4 FIXED FIXED BIT;
    GE 4 CHAR CHAR BIT;
    GE 4 CLOCK CLOCK BIT;
    GE 4 DURATION DURATION BIT;
    EQ 5 FIXED FIXED BIT;
    EQ 5 BIT BIT BIT;
    EQ 5 CHAR CHAR BIT;
    EQ 5 CLOCK CLOCK BIT;
    EQ 5 DURATION DURATION BIT;
    NE 5 FIXED FIXED BIT;
    NE 5 BIT BIT BIT;
    NE 5 CHAR CHAR BIT;
    NE 5 CLOCK CLOCK BIT;
    NE 5 DURATION DURATION BIT;
    AND 6 BIT BIT BIT;
    OR 7 BIT BIT BIT;
    EXOR 7 BIT BIT BIT;
];

/// The rank of an operator: a smaller one binds closer.
pub fn rank(operator: Dyad) -> u8
    ensures { result ≡ rank operator }
{
    match operator {
        Dyad::Pow => 1,
        Dyad::Mul | Dyad::Div | Dyad::Rem | Dyad::Cat => 2,
        Dyad::Add | Dyad::Sub | Dyad::Cshift | Dyad::Shift => 3,
        Dyad::Lt | Dyad::Gt | Dyad::Le | Dyad::Ge => 4,
        Dyad::Eq | Dyad::Ne => 5,
        Dyad::And => 6,
        Dyad::Or | Dyad::Exor => 7,
    }
}

fn has_key(row: &OpRow, code: u8, left: u8, right: u8) -> bool
    ensures { IsTrue result ↔ HasKey row.now code left right }
{
    row.code == code && row.left == left && row.right == right
}

/// The row of the operator and these families in rows whose keys rise strictly: code, left, right.
pub fn find_op<const N: usize>(rows: &[OpRow; N], code: u8, left: u8, right: u8) -> Option<OpRow>
    requires { IsTrue (rises key_before rows.now) }
    ensures found { IfSome result (λ row. Contains rows.now row × HasKey row code left right) }
    ensures only { All (λ row. HasKey row code left right → result ≡ Some row) rows.now }
    ensures none { (result ≡ None) ↔ All (λ row. ¬ HasKey row code left right) rows.now }
{
    for row in rows {
        if has_key(row, code, left, right) {
            return Some(*row);
        }
    }
    None
}
