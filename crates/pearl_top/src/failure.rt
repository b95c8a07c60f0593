// Why a command was not carried out to its end.

ghost use Rattle.std.specs.Prelude.{◌≡◌};
ghost use Rattle.pearl_top.specs.Failures.{check_refusal, lex_refusal, parse_refusal, read_refusal, snap_refusal, verify_refusal, watch_refusal};
ghost use Rattle.pearl_top.specs.declared.failure.Failure.TheVariants as failure;
ghost use Rattle.pearl_script.specs.declared.refusal.Refusal.TheVariants as refusal;

use pearl_check::fault::CheckFault;
use pearl_io::WriteFault;
use pearl_journal::lines::BadLine;
use pearl_lex::fault::LexFault;
use pearl_object::fault::ReadFail;
use pearl_parse_expr::fault::ParseFault;
use pearl_script::refusal::Refusal;
use pearl_snap::fault::SnapFault;
use pearl_tree::fault::RuleFault;
use pearl_verify::verify::VerifyFault;
use pearl_watch::fault::WatchFault;
use std::alloc::AllocError;

/// Why a command was not carried out to its end.
#[derive(Clone, Copy, PartialEq, Eq, Debug)]
pub enum Failure {
    /// For what this refusal tells. Its line is still to be written.
    Refused(Refusal),
    /// What was to be written was not taken.
    WriteFault,
}

impl From<WriteFault> for Failure {
    ghost from_gives = { λ _ e. e ≡ failure.WriteFault };

    fn from(_fault: WriteFault) -> Failure {
        Failure::WriteFault
    }
}

impl From<AllocError> for Failure {
    ghost from_gives = { λ _ e. e ≡ failure.Refused refusal.Memory };

    fn from(_error: AllocError) -> Failure {
        Failure::Refused(Refusal::Memory)
    }
}

impl From<LexFault> for Failure {
    ghost from_gives = { λ fault e. e ≡ failure.Refused (lex_refusal fault) };

    fn from(fault: LexFault) -> Failure {
        match fault {
            LexFault::Refused(place) => Failure::Refused(Refusal::Syntax(place)),
            LexFault::NoMemory => Failure::Refused(Refusal::Memory),
        }
    }
}

impl From<ParseFault> for Failure {
    ghost from_gives = { λ fault e. e ≡ failure.Refused (parse_refusal fault) };

    fn from(fault: ParseFault) -> Failure {
        match fault {
            ParseFault::Refused(place) => Failure::Refused(Refusal::Syntax(place)),
            ParseFault::NoMemory => Failure::Refused(Refusal::Memory),
        }
    }
}

impl From<CheckFault> for Failure {
    ghost from_gives = { λ fault e. e ≡ failure.Refused (check_refusal fault) };

    fn from(fault: CheckFault) -> Failure {
        match fault {
            CheckFault::Refused(RuleFault { place, rule }) => Failure::Refused(Refusal::Source {
                place,
                rule,
            }),
            CheckFault::NoMemory => Failure::Refused(Refusal::Memory),
        }
    }
}

impl From<ReadFail> for Failure {
    ghost from_gives = { λ fault e. e ≡ failure.Refused (read_refusal fault) };

    fn from(fault: ReadFail) -> Failure {
        match fault {
            ReadFail::BadObject(place) => Failure::Refused(Refusal::Object(place)),
            ReadFail::NoMemory => Failure::Refused(Refusal::Memory),
        }
    }
}

impl From<VerifyFault> for Failure {
    ghost from_gives = { λ fault e. e ≡ failure.Refused (verify_refusal fault) };

    fn from(fault: VerifyFault) -> Failure {
        match fault {
            VerifyFault::Unsound {
                routine,
                instruction,
                rule,
            } => Failure::Refused(Refusal::Unsound {
                routine,
                instruction,
                rule,
            }),
            VerifyFault::NoMemory => Failure::Refused(Refusal::Memory),
        }
    }
}

impl From<BadLine> for Failure {
    ghost from_gives = { λ bad e. e ≡ failure.Refused (refusal.Journal bad.line bad.code) };

    fn from(bad: BadLine) -> Failure {
        Failure::Refused(Refusal::Journal {
            line: bad.line,
            code: bad.code,
        })
    }
}

impl From<WatchFault> for Failure {
    ghost from_gives = { λ fault e. e ≡ failure.Refused (watch_refusal fault) };

    fn from(fault: WatchFault) -> Failure {
        match fault {
            WatchFault::BadName(number) => Failure::Refused(Refusal::Name(number)),
            WatchFault::NoMemory => Failure::Refused(Refusal::Memory),
        }
    }
}

impl From<SnapFault> for Failure {
    ghost from_gives = { λ fault e. e ≡ failure.Refused (snap_refusal fault) };

    fn from(fault: SnapFault) -> Failure {
        match fault {
            SnapFault::BadBytes(place) => Failure::Refused(Refusal::Snapshot(place)),
            SnapFault::BadState(rule) => Failure::Refused(Refusal::State(rule.number())),
            SnapFault::NoMemory => Failure::Refused(Refusal::Memory),
        }
    }
}
