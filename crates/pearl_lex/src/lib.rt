// The tokens of a source: words, names, numbers, times, bits, texts and symbols, with blanks and comments between them.
#![tactic(auto)]

pub mod fault;
pub mod front;
pub mod laws;
pub mod lexer;
mod literal;
mod quoted;
mod spelling;
