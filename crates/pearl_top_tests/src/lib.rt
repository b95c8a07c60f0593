// Tests over whole sources: what the top call answers, and the code that programs become.
#![tactic(auto)]

// A table with a case in each line: a source, and what is expected.
macro_rules! table {
    ($($source:expr => $wanted:literal;)*) => { &[$(($source, "", $wanted)),*] };
}

// A table with a case of a run in each line: a part of a source, a journal, and what is expected.
macro_rules! runs {
    ($($part:literal, $journal:literal => $told:literal;)*) => { &[$(($part, $journal, $told)),*] };
}

#[cfg(test)]
mod bench;
#[cfg(test)]
mod calls;
#[cfg(test)]
mod case;
#[cfg(test)]
mod check;
#[cfg(test)]
mod codes;
#[cfg(test)]
mod ends;
#[cfg(test)]
mod instruction_text;
#[cfg(test)]
mod kept;
#[cfg(test)]
mod limits;
#[cfg(test)]
mod listings;
#[cfg(test)]
mod mark;
#[cfg(test)]
mod nesting;
#[cfg(test)]
mod objects;
#[cfg(test)]
mod pieces;
#[cfg(test)]
mod print;
#[cfg(test)]
mod run;
#[cfg(test)]
mod saved;
#[cfg(test)]
mod source;
#[cfg(test)]
mod tasks;
#[cfg(test)]
mod timed;
#[cfg(test)]
mod typed;
#[cfg(test)]
mod watch;
#[cfg(test)]
mod whole;
