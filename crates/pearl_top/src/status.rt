// How a call ends.

ghost use Rattle.std.specs.Prelude.{◌≡◌};
ghost use Rattle.pearl_top.specs.Status.{code_of, status_of as status_of_refusal};

use pearl_script::refusal::Refusal;

/// How a call ends.
#[derive(Clone, Copy, PartialEq, Eq, Debug)]
pub enum Status {
    /// The command was carried out to its end.
    Done,
    /// The words are no command.
    Usage,
    /// The source is refused.
    Refused,
    /// The object is refused.
    BadObject,
    /// A line of the journal is refused.
    BadJournal,
    /// A file could not be read.
    ReadFault,
    /// What was to be written was not taken.
    WriteFault,
    /// There was no memory.
    NoMemory,
    /// A file has more bytes than its limit.
    TooLong,
    /// A name can't be watched.
    BadName,
}

impl Status {
    /// The exit status of the process, from 0 to 9 in the order of the variants.
    pub fn code(&self) -> u8
        ensures { result ≡ code_of self.now }
    {
        match self {
            Status::Done => 0,
            Status::Usage => 1,
            Status::Refused => 2,
            Status::BadObject => 3,
            Status::BadJournal => 4,
            Status::ReadFault => 5,
            Status::WriteFault => 6,
            Status::NoMemory => 7,
            Status::TooLong => 8,
            Status::BadName => 9,
        }
    }
}

/// How a call ends that writes the line of this refusal.
pub fn status_of(refusal: &Refusal) -> Status
    ensures { result ≡ status_of_refusal refusal.now }
{
    match refusal {
        Refusal::Usage => Status::Usage,
        Refusal::Syntax(_) | Refusal::Source { .. } => Status::Refused,
        Refusal::Object(_) | Refusal::Unsound { .. } | Refusal::Snapshot(_) | Refusal::State(_) =>
            Status::BadObject,
        Refusal::Journal { .. } => Status::BadJournal,
        Refusal::Read => Status::ReadFault,
        Refusal::Memory => Status::NoMemory,
        Refusal::TooLong(_) => Status::TooLong,
        Refusal::Name(_) => Status::BadName,
    }
}
