// Expressions that were worked out by hand, each written back with a bracket round each dyadic operator.

use crate::cases::{Case, case_of, expect};
use pearl_parse_expr::expression::expression;
use pearl_parse_expr::fault::ParseFault;
use pearl_tree::expression::{Expr, Operand, Primary, Ref, Selector, Side};
use pearl_tree::literal::Literal;
use pearl_tree::token::Token;
use pearl_value::operator::{Dyad, Monad};
use std::alloc::{AllocError, Global};
use std::fmt;

// The place that is told where the tokens run out.
const NO_PLACE: u32 = u32::MAX;

// Each source with a bracket round each dyadic operator that is read, up to `|`. It is read no further because of the
// token at `^`, where that isn't the one at `|`.
static EXPRESSIONS: [(&str, &str); 36] = table![
    "a - b - c ** d|" => "((a-b)-(c^d))";
    "a ** b ** c|" => "((a^b)^c)";
    "a OR b AND c EQ d LT e + f * g ** h|" => "(a|(b&(c=(d<(e+(f*(g^h)))))))";
    "a ** b * c + d > e /= f AND g EXOR h|" => "(((((((a^b)*c)+d)>e)#f)&g)?h)";
    "a // b REM c >< d|" => "(((a/b)%c)~d)";
    "a <> b SHIFT c|" => "((a@b)$c)";
    "a <= b >= c|" => "((a{b)}c)";
    "(a - (b - c)) * d|" => "([(a-[(b-c)])]*d)";
    "- a ** b|" => "(-a^b)";
    "NOT ABS SIGN + a|" => "!AS+a";
    "a.b(1, c + d)(e).f|" => "a.b(n,(c+d))(e).f";
    "f(a)|(b^" => "f(a)";
    "f|(a, ^)" => "f";
    "f|(a ^b)" => "f";
    "f|(^) + 1" => "f";
    "f|(a^" => "f";
    "a|.^5" => "a";
    "a|.^" => "a";
    "a.b|.^1" => "a.b";
    "1 HRS 2 MIN 3.5 SEC - 4 HRS 5 SEC|" => "(d-d)";
    "6 MIN 7 SEC + 8.9 SEC|" => "(d+d)";
    "1 HRS| 2 ^x" => "d";
    "1 HRS| 2.5 ^MIN" => "d";
    "1 MIN| 2.5^" => "d";
    "1 SEC| 2 SEC" => "d";
    "2 UPB a(1) - LWB b.c|" => "(nUa(n)-Lb.c)";
    "1| LWB ^5" => "n";
    "1 + 2| UPB^" => "(n+n)";
    "NOW - TRY s|" => "(N-Ts)";
    "'1'B >< 'ab' CAT 1:2:3|" => "((b~t)~c)";
    "a| b" => "a";
    "a| + ^;" => "a";
    "a + b| * ^" => "(a+b)";
    "a| + NOT ^)" => "a";
    "a| + (b^" => "a";
    "x| := y" => "x";
];

// Sources with which no expression begins.
static NO_EXPRESSIONS: [&str; 15] = [
    "^", "^)", "^* a", "(a^", "(a^, b)", "(^)", "((a)^", "(a + ^)", "1.5 ^x", "TRY ^1", "TRY^",
    "UPB ^5", "- +^", "NOT ^;", "^IF a",
];

fn dyad_mark(operator: Dyad) -> u8 {
    match operator {
        Dyad::Pow => b'^',
        Dyad::Mul => b'*',
        Dyad::Div => b'/',
        Dyad::Rem => b'%',
        Dyad::Cat => b'~',
        Dyad::Add => b'+',
        Dyad::Sub => b'-',
        Dyad::Cshift => b'@',
        Dyad::Shift => b'$',
        Dyad::Lt => b'<',
        Dyad::Gt => b'>',
        Dyad::Le => b'{',
        Dyad::Ge => b'}',
        Dyad::Eq => b'=',
        Dyad::Ne => b'#',
        Dyad::And => b'&',
        Dyad::Or => b'|',
        Dyad::Exor => b'?',
    }
}

fn monad_mark(operator: Monad) -> u8 {
    match operator {
        Monad::Plus => b'+',
        Monad::Minus => b'-',
        Monad::Abs => b'A',
        Monad::Sign => b'S',
        Monad::Not => b'!',
    }
}

fn literal_mark(literal: &Literal) -> u8 {
    match literal {
        Literal::Number(_) => b'n',
        Literal::Bits { .. } => b'b',
        Literal::Text { .. } => b't',
        Literal::Clock { .. } => b'c',
        Literal::Duration(_) => b'd',
    }
}

fn side_mark(side: Side) -> u8 {
    match side {
        Side::Lower => b'L',
        Side::Upper => b'U',
    }
}

#[cycle(show)]
fn show(into: &mut Vec<u8>, expr: &Expr) -> Result<(), AllocError> {
    match expr {
        Expr::Operand(operand) => show_operand(into, operand)?,
        Expr::Dyadic {
            left,
            dyadic,
            right,
            ..
        } => {
            into.push(b'(')?;
            show(into, left)?;
            into.push(dyad_mark(dyadic.operator))?;
            show(into, right)?;
            into.push(b')')?;
        }
    }
    Ok(())
}

#[cycle(show)]
fn show_operand(into: &mut Vec<u8>, operand: &Operand) -> Result<(), AllocError> {
    for monadic in operand.monadics.as_slice() {
        into.push(monad_mark(monadic.operator))?;
    }
    match &operand.primary {
        Primary::Literal(literal) => into.push(literal_mark(literal))?,
        Primary::Ref(reference) => show_ref(into, reference)?,
        Primary::Group { inner, .. } => {
            into.push(b'[')?;
            show(into, inner)?;
            into.push(b']')?;
        }
        Primary::Now { .. } => into.push(b'N')?,
        Primary::Try { name, .. } => {
            into.push(b'T')?;
            into.extend_from_slice(name.text.as_slice())?;
        }
        Primary::Limit {
            dimension,
            side,
            array,
            ..
        } => {
            if dimension.is_some() {
                into.push(b'n')?;
            }
            into.push(side_mark(*side))?;
            show_ref(into, array)?;
        }
    }
    Ok(())
}

#[cycle(show)]
fn show_ref(into: &mut Vec<u8>, reference: &Ref) -> Result<(), AllocError> {
    into.extend_from_slice(reference.name.text.as_slice())?;
    show_selectors(into, reference.selectors.as_slice())?;
    Ok(())
}

#[cycle(show)]
fn show_selectors(into: &mut Vec<u8>, selectors: &[Selector]) -> Result<(), AllocError> {
    for selector in selectors {
        match selector {
            Selector::Subscripts { subscripts, .. } => show_all(into, subscripts.as_slice())?,
            Selector::Component { name, .. } => {
                into.push(b'.')?;
                into.extend_from_slice(name.text.as_slice())?;
            }
        }
    }
    Ok(())
}

#[cycle(show)]
fn show_all(into: &mut Vec<u8>, exprs: &[Expr]) -> Result<(), AllocError> {
    let mut before = b'(';
    for expr in exprs {
        into.push(before)?;
        show(into, expr)?;
        before = b',';
    }
    into.push(b')')?;
    Ok(())
}

fn is_shown(alloc: Global, expr: &Expr, text: &[u8]) -> bool {
    let mut shown = Vec::new(alloc);
    match show(&mut shown, expr) {
        Ok(()) => shown.as_slice() == text,
        Err(_) => false,
    }
}

// The place of a token, or that of no token.
fn place_or_none(tokens: &[Token], number: usize) -> u32 {
    match tokens.get(number) {
        Some(token) => token.place,
        None => NO_PLACE,
    }
}

fn is_read(alloc: Global, case: &Case, text: &[u8]) -> bool {
    match expression(alloc, case.tokens.as_slice(), 0) {
        Ok((expr, end, stop)) => case.end == Some(end)
            && stop == place_or_none(case.tokens.as_slice(), case.stop)
            && is_shown(alloc, &expr, text),
        Err(_) => false,
    }
}

fn reads(alloc: Global, case: &[u8], text: &[u8]) -> bool {
    match case_of(alloc, case) {
        Some(case) => is_read(alloc, &case, text),
        None => false,
    }
}

fn is_refused(alloc: Global, tokens: &[Token], from: usize, stop: u32) -> bool {
    match expression(alloc, tokens, from) {
        Ok(_) => false,
        Err(fault) => match fault {
            ParseFault::Refused(place) => place == stop,
            ParseFault::NoMemory => false,
        },
    }
}

fn refuses(alloc: Global, case: &[u8]) -> bool {
    match case_of(alloc, case) {
        Some(case) => {
            let stop = place_or_none(case.tokens.as_slice(), case.stop);
            case.end.is_none() && is_refused(alloc, case.tokens.as_slice(), 0, stop)
        }
        None => false,
    }
}

// These parts, each so many times.
fn repeated(alloc: Global, parts: &[(&str, usize)]) -> Result<Vec<u8>, AllocError> {
    let mut source = Vec::new(alloc);
    for &(part, times) in parts {
        for _ in 0..times {
            source.extend_from_slice(part.as_bytes())?;
        }
    }
    Ok(source)
}

#[test]
fn expressions_are_read_to_their_end(rt: HostRuntime) -> Result<(), fmt::Error> {
    for &(case, text) in &EXPRESSIONS {
        expect(
            &rt,
            reads(rt.alloc(), case.as_bytes(), text.as_bytes()),
            case,
        );
    }
    Ok(())
}

#[test]
fn what_begins_no_expression_is_refused(rt: HostRuntime) -> Result<(), fmt::Error> {
    for &case in &NO_EXPRESSIONS {
        expect(&rt, refuses(rt.alloc(), case.as_bytes()), case);
    }
    Ok(())
}

#[test]
fn a_token_after_the_last_begins_none(rt: HostRuntime) -> Result<(), fmt::Error> {
    assert!(rt; is_refused(rt.alloc(), &[], 7, NO_PLACE));
    Ok(())
}

/// Parts, each so many times.
type Parts = &'static [(&'static str, usize)];

// Cases of parts with what is shown of them: brackets nest 32 deep, a level has 100 dyadic operators, and a primary has 8
// monadic ones.
static READ: [(Parts, Parts); 6] = [
    (
        &[("(", 32), ("a", 1), (")", 32), ("|", 1)],
        &[("[", 32), ("a", 1), ("]", 32)],
    ),
    (
        &[("f(", 32), ("a", 1), (")", 32), ("|", 1)],
        &[("f(", 32), ("a", 1), (")", 32)],
    ),
    (
        &[("f|", 1), ("(f", 32), ("^(a)", 1), (")", 32)],
        &[("f", 1)],
    ),
    (
        &[("a", 1), ("+a", 100), ("|", 1)],
        &[("(", 100), ("a", 1), ("+a)", 100)],
    ),
    (
        &[("a", 1), ("+a", 100), ("|+a", 1)],
        &[("(", 100), ("a", 1), ("+a)", 100)],
    ),
    (&[("-", 8), ("a|", 1)], &[("-", 8), ("a", 1)]),
];

// Cases of parts that pass these limits.
static REFUSED: [Parts; 2] = [
    &[("(", 32), ("^(a)", 1), (")", 32)],
    &[("-", 8), ("^-a", 1)],
];

fn reads_parts(alloc: Global, case: Parts, shown: Parts) -> Result<bool, AllocError> {
    let case = repeated(alloc, case)?;
    let shown = repeated(alloc, shown)?;
    Ok(reads(alloc, case.as_slice(), shown.as_slice()))
}

fn refuses_parts(alloc: Global, case: Parts) -> Result<bool, AllocError> {
    let case = repeated(alloc, case)?;
    Ok(refuses(alloc, case.as_slice()))
}

#[test]
fn levels_and_operators_are_read_up_to_their_limits(rt: HostRuntime) -> Result<(), AllocError> {
    for (number, &(case, shown)) in READ.iter().enumerate() {
        assert!(rt; reads_parts(rt.alloc(), case, shown)?, "row {number}");
    }
    Ok(())
}

#[test]
fn what_passes_their_limits_is_refused(rt: HostRuntime) -> Result<(), AllocError> {
    for (number, &case) in REFUSED.iter().enumerate() {
        assert!(rt; refuses_parts(rt.alloc(), case)?, "row {number}");
    }
    Ok(())
}
