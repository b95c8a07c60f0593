// The object of a source.

ghost use Rattle.std.specs.Prelude.{IfOk, IfSome};
ghost use Rattle.pearl_sound.specs.KnownParts.{NamesSemaphores};
ghost use Rattle.pearl_tree.specs.Lawful.{IsLawful};
ghost use Rattle.pearl_tree.specs.ShownModules.{shown_tree};

use pearl_check::fault::CheckFault;
use pearl_generate::generate;
use pearl_instructions::object::Object;
use pearl_lex::fault::LexFault;
use pearl_lex::lexer::tokens;
use pearl_parse::parse::parse;
use pearl_parse_expr::fault::ParseFault;
use pearl_top::program::program_of;
use pearl_tree::tree::Tree;
use pearl_verify::verify::{BrokenRule, judge_object};
use std::alloc::{AllocError, Global};

/// What a source of at most 1 MiB becomes.
#[derive(Drop)]
pub enum Made {
    NoTree,
    /// A rule that the source breaks, and where.
    Broken { rule: u8, place: u32 },
    Object(Object),
}

fn tree_of(alloc: Global, source: &[u8]) -> Result<Option<Tree>, AllocError>
    ensures named { IfOk result (λ read. IfSome read (λ tree. NamesSemaphores (shown_tree tree))) }
    ensures lawful { IfOk result (λ read. IfSome read (λ tree. IsLawful tree)) }
{
    if source.len() > 1_048_576 {
        return Ok(None);
    }
    let end = source.len() as u32;
    let tokens = match tokens(alloc, source) {
        Ok(tokens) => tokens,
        Err(LexFault::Refused(_)) => return Ok(None),
        Err(LexFault::NoMemory) => return Err(AllocError),
    };
    match parse(alloc, tokens.as_slice(), end) {
        Ok(tree) => Ok(Some(tree)),
        Err(ParseFault::Refused(_)) => Ok(None),
        Err(ParseFault::NoMemory) => Err(AllocError),
    }
}

pub fn made_of(alloc: Global, source: &[u8]) -> Result<Made, AllocError> {
    let Some(tree) = tree_of(alloc, source)? else {
        return Ok(Made::NoTree);
    };
    match program_of(alloc, &tree) {
        Ok(program) => Ok(Made::Object(generate(alloc, &program)?)),
        Err(CheckFault::Refused(fault)) => Ok(Made::Broken {
            rule: fault.rule,
            place: fault.place,
        }),
        Err(CheckFault::NoMemory) => Err(AllocError),
    }
}

/// How far a source comes.
pub fn judged(alloc: Global, source: &[u8]) -> Result<String, AllocError> {
    let object = match made_of(alloc, source)? {
        Made::NoTree => return String::from_str(alloc, "no tree"),
        Made::Broken { rule, place } => return format!(in alloc; "S{rule} at {place}"),
        Made::Object(object) => object,
    };
    match judge_object(alloc, object.parts())? {
        None => String::from_str(alloc, "valid"),
        Some(
            BrokenRule {
                routine,
                instruction,
                rule,
            },
        ) => format!(in alloc; "V{rule} in {routine} at {instruction}"),
    }
}
