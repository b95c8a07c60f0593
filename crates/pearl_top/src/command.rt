// The commands.

ghost use Rattle.std.specs.Prelude.{◌≡◌, List, bytes_eq, map, string_bytes};
ghost use Rattle.std.specs.Fmt.{decimal};
ghost use Rattle.pearl_top.specs.Commands.{NoCommand, asked, bench_of as bench_of_digits, command_of, of_one as of_one_word, of_two as of_two_words, of_names as of_names_words, unless_many, IsCommand};

use crate::limits::NAME_LIMIT;
use itoa::Buffer;

/// What the words ask for.
pub enum Command<'a> {
    /// `run SOURCE JOURNAL`.
    Run {
        source: &'a str,
        journal: &'a str,
    },
    /// `check SOURCE`.
    Check {
        source: &'a str,
    },
    /// `print SOURCE`.
    Print {
        source: &'a str,
    },
    /// `compile SOURCE`.
    Compile {
        source: &'a str,
    },
    /// `exec OBJECT JOURNAL`.
    Exec {
        object: &'a str,
        journal: &'a str,
    },
    /// `list OBJECT`.
    List {
        object: &'a str,
    },
    /// `bench N`, N from 1 to 100 without leading zeros.
    Bench {
        n: u8,
    },
    /// `watch OBJECT JOURNAL NAME ..`, with 1 to 64 names.
    Watch {
        object: &'a str,
        journal: &'a str,
        names: &'a [String],
    },
    /// `save OBJECT JOURNAL`.
    Save {
        object: &'a str,
        journal: &'a str,
    },
    /// `resume SNAPSHOT JOURNAL`.
    Resume {
        snapshot: &'a str,
        journal: &'a str,
    },
    /// The words are none of the listed forms.
    None,
}

/// The command of the words after the program's name.
pub fn command_of_words(words: &[String]) -> Command<'_>
    ensures { IsCommand result (command_of (map string_bytes words.now)) }
{
    match words {
        [word, name] => of_one(word.as_str(), name.as_str()),
        [word, name, second] => of_two(word.as_str(), name.as_str(), second.as_str()),
        [word, name, second, more @ ..] => of_more(
            word.as_str(),
            name.as_str(),
            second.as_str(),
            more,
        ),
        _ => Command::None,
    }
}

// The command of a word and one more.
fn of_one<'a>(word: &str, name: &'a str) -> Command<'a>
    ensures { IsCommand result (asked (λ name. NoCommand) of_one_word word.now name.now) }
{
    if word == "check" {
        Command::Check { source: name }
    } else if word == "print" {
        Command::Print { source: name }
    } else if word == "compile" {
        Command::Compile { source: name }
    } else if word == "list" {
        Command::List { object: name }
    } else if word == "bench" {
        bench_of(name)
    } else {
        Command::None
    }
}

// The command of a word and two more.
fn of_two<'a>(word: &str, name: &'a str, second: &'a str) -> Command<'a>
    ensures { IsCommand result (asked (λ name second. NoCommand) of_two_words word.now name.now second.now) }
{
    if word == "run" {
        Command::Run {
            source: name,
            journal: second,
        }
    } else if word == "exec" {
        Command::Exec {
            object: name,
            journal: second,
        }
    } else if word == "save" {
        Command::Save {
            object: name,
            journal: second,
        }
    } else if word == "resume" {
        Command::Resume {
            snapshot: name,
            journal: second,
        }
    } else {
        Command::None
    }
}

// The command of a word, two more, and any number behind these.
fn of_more<'a>(word: &str, name: &'a str, second: &'a str, more: &'a [String]) -> Command<'a>
    ensures { IsCommand result (unless_many (map string_bytes more.now)
        (asked (λ name second names. NoCommand) of_names_words word.now name.now second.now (map string_bytes more.now))) }
{
    if word == "watch" && more.len() <= NAME_LIMIT {
        Command::Watch {
            object: name,
            journal: second,
            names: more,
        }
    } else {
        Command::None
    }
}

// The workload of the number that these digits spell, if it is one from 1 to 100.
fn bench_of(digits: &str) -> Command<'_>
    ensures { IsCommand result (bench_of_digits digits.now) }
{
    let mut n = 100;
    'numbers: while n > 0 {
        if spells(digits, n) {
            return Command::Bench { n };
        }
        n -= 1;
    }
    Command::None
}

// Whether these digits spell this number.
fn spells(digits: &str, n: u8) -> bool
    ensures { result ≡ bytes_eq (decimal n) digits.now }
{
    let mut buffer = Buffer::new();
    buffer.format(n) == digits
}
