// Sources with a mark in them, so that a case shows the place that is told, and texts of parts.

use std::alloc::{AllocError, Global};

/// Stands before what is refused. No source has this byte.
const MARK: u8 = b'^';

/// The bytes of a case without its mark, and the place before which that stands.
pub fn unmarked(alloc: Global, case: &str) -> Result<(Vec<u8>, usize), AllocError> {
    let mut source = Vec::new(alloc);
    let mut place = usize::MAX;
    for &byte in case.as_bytes() {
        if byte == MARK {
            place = source.len();
        } else {
            source.push(byte)?;
        }
    }
    Ok((source, place))
}

/// A line with the place where it has the mark.
pub fn told(alloc: Global, line: &str, place: usize) -> Result<String, AllocError> {
    let mut text = String::new(alloc);
    for letter in line.chars() {
        if letter == char::from(MARK) {
            write!(text, "{place}")?;
        } else {
            text.push(letter)?;
        }
    }
    Ok(text)
}

// Puts a part down for one of its times: `@` stands for the number of that time, from 1 on, `&` for the number before
// it, `~` for the number counted from the last time on, and `$` for that in three columns.
fn put(into: &mut String, part: &str, number: usize, back: usize) -> Result<(), AllocError> {
    for letter in part.chars() {
        match letter {
            '@' => write!(into, "{number}")?,
            '&' => write!(into, "{}", number.saturating_sub(1))?,
            '~' => write!(into, "{back}")?,
            '$' => write!(into, "{back:>3}")?,
            _ => into.push(letter)?,
        }
    }
    Ok(())
}

/// These parts, each so many times.
pub fn joined(alloc: Global, parts: &[(&str, usize)]) -> Result<String, AllocError> {
    let mut whole = String::new(alloc);
    for &(part, times) in parts {
        for before in 0..times {
            put(&mut whole, part, before + 1, times - before)?;
        }
    }
    Ok(whole)
}
