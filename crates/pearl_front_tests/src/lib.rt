// Tests of the way from a source to its program: tokens, trees and the text of a tree, static rules, and what a module
// means.
#![tactic(auto)]

// A table with a case in each line: what is given, and what is expected.
macro_rules! table {
    ($($given:literal => $expected:literal;)*) => { [$(($given, $expected)),*] };
}

#[cfg(test)]
mod cases;
#[cfg(test)]
mod checks;
#[cfg(test)]
mod declarations;
#[cfg(test)]
mod devices;
#[cfg(test)]
mod expression_text;
#[cfg(test)]
mod expressions;
#[cfg(test)]
mod kinds;
#[cfg(test)]
mod modules;
#[cfg(test)]
mod program_tables;
#[cfg(test)]
mod program_text;
#[cfg(test)]
mod programs;
#[cfg(test)]
mod rules;
#[cfg(test)]
mod scopes;
#[cfg(test)]
mod statement_rules;
#[cfg(test)]
mod statement_text;
#[cfg(test)]
mod statements;
#[cfg(test)]
mod texts;
#[cfg(test)]
mod tokens;
#[cfg(test)]
mod words;
