// Sources with marks in them, so that a case shows the places that it tells.

use pearl_lex::lexer::tokens;
use pearl_parse::parse::parse;
use pearl_tree::fault::RuleFault;
use pearl_tree::token::Token;
use pearl_tree::tree::Tree;
use std::alloc::{AllocError, Global};
use std::process::Abort;

/// Ends the test that says of this case what isn't so.
pub fn expect(rt: &impl Abort, is_so: bool, case: &str) {
    assert!(rt; is_so, "{case}");
}

/// Stands where what is read ends.
pub const END: u8 = b'|';

/// Stands before what is refused, or at what stops the reader.
pub const STOP: u8 = b'^';

fn is_mark(byte: u8) -> bool {
    byte == END || byte == STOP
}

/// The bytes of a case without its marks.
pub fn source_of(alloc: Global, case: &[u8]) -> Result<Vec<u8>, AllocError> {
    let mut source = Vec::new(alloc);
    for &byte in case {
        if !is_mark(byte) {
            source.push(byte)?;
        }
    }
    Ok(source)
}

/// The places in the source before which this mark stands.
pub fn places_of(alloc: Global, case: &[u8], mark: u8) -> Result<Vec<u32>, AllocError> {
    let mut places = Vec::new(alloc);
    let mut place: u32 = 0;
    for &byte in case {
        if byte == mark {
            places.push(place)?;
        } else if !is_mark(byte) {
            place = place.saturating_add(1);
        }
    }
    Ok(places)
}

/// The first of these places, if there is one.
pub fn place_of(case: &[u8], mark: u8) -> Option<u32> {
    let mut place: u32 = 0;
    for &byte in case {
        if byte == mark {
            return Some(place);
        }
        if !is_mark(byte) {
            place = place.saturating_add(1);
        }
    }
    None
}

/// The tokens of a source of at most 1 MiB, if it has some, and its length.
pub fn tokens_of(alloc: Global, source: &[u8]) -> Option<(Vec<Token>, u32)> {
    if source.len() > 1_048_576 {
        return None;
    }
    let end = source.len() as u32;
    match tokens(alloc, source) {
        Ok(tokens) => Some((tokens, end)),
        Err(_) => None,
    }
}

/// The number of the first token at this place or behind it.
pub fn number_at(tokens: &[Token], place: u32) -> usize {
    let mut number: usize = 0;
    for token in tokens {
        if token.place >= place {
            return number;
        }
        number = number.saturating_add(1);
    }
    number
}

/// The tokens of a case, the number of the one behind what is read, if something is, and that of the one that stops
/// the reader: the same where no mark says another.
#[derive(Drop)]
pub struct Case {
    pub tokens: Vec<Token>,
    pub end: Option<usize>,
    pub stop: usize,
}

/// Takes a case apart, if its source has tokens and a mark.
pub fn case_of(alloc: Global, case: &[u8]) -> Option<Case> {
    let source = source_of(alloc, case).ok()?;
    let (tokens, _) = tokens_of(alloc, source.as_slice())?;
    let end = match place_of(case, END) {
        Some(place) => Some(number_at(tokens.as_slice(), place)),
        None => None,
    };
    let stop = match place_of(case, STOP) {
        Some(place) => number_at(tokens.as_slice(), place),
        None => end?,
    };
    Some(Case { tokens, end, stop })
}

/// The tree of a case, if its source has one.
pub fn tree_of(alloc: Global, case: &[u8]) -> Option<Tree> {
    let source = source_of(alloc, case).ok()?;
    let (tokens, end) = tokens_of(alloc, source.as_slice())?;
    parse(alloc, tokens.as_slice(), end).ok()
}

/// Shows the broken rules of a case, each with a blank behind it. One that isn't told at its mark has its place in front.
pub fn show_faults(
    into: &mut String,
    faults: &[RuleFault],
    places: &[u32],
) -> Result<(), AllocError> {
    let mut marks = places.iter();
    for fault in faults {
        if marks.next() != Some(&fault.place) {
            write!(into, "{}:", fault.place)?;
        }
        write!(into, "S{} ", fault.rule)?;
    }
    if marks.next().is_some() {
        into.push_str("a mark too many ")?;
    }
    Ok(())
}
