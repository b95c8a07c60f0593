// Replays plants: each word names a run, and for each is told whether `run` of its source, and `exec` of the object that
// `compile` makes of that, end with status 0 and write the transcript that is kept.
// The run `tank` has the files tank.pearl, tank.journal and tank.transcript. The run `tank-dry` has the same plant, that of
// tank.pearl, with tank-dry.journal and tank-dry.transcript. With names behind it, as in `tank+Level+Open`, a run is told of by
// what `watch` of these names writes, which is kept as tank.watched.
#![tactic(auto)]

use pearl_io::{File, SureShelf, SureSink};
use pearl_top::status::Status;
use pearl_top::top::pearl;
use std::alloc::{AllocError, Global};
use std::process::ExitCode;
use std::rt::Files;
use std::{env, fs, io};

// Room for a transcript or an object.
const ROOM: usize = 1 << 20;

// How a command ended, and what it wrote.
#[derive(Drop)]
struct Ended {
    status: Status,
    bytes: Vec<u8>,
}

// The plant of a run.
fn plant_of(run: &str) -> &str {
    match run.split_once('-') {
        Some((plant, _)) => plant,
        None => run,
    }
}

fn read<R: Files + AllocGlobal>(rt: &R, name: &str, ending: &str) -> io::Result<Vec<u8>> {
    let path = format!(in rt.alloc(); "{name}.{ending}")?;
    fs::read(rt, path.as_str())
}

// How the command of these words ends over the files `plant` and `journal`.
fn command(
    alloc: Global,
    words: &[&str],
    plant: &[u8],
    journal: &[u8],
) -> Result<Ended, AllocError> {
    let mut owned = Vec::new(alloc);
    for word in words {
        owned.push(String::from_str(alloc, word)?)?;
    }
    carried_out(alloc, owned.as_slice(), plant, journal)
}

// The same of words that are kept.
fn carried_out(
    alloc: Global,
    words: &[String],
    plant: &[u8],
    journal: &[u8],
) -> Result<Ended, AllocError> {
    let mut files = Vec::new(alloc);
    for (name, bytes) in [("plant", plant), ("journal", journal)] {
        files.push(File {
            name: String::from_str(alloc, name)?,
            bytes: Vec::from_slice(alloc, bytes)?,
        })?;
    }
    let mut sink = SureSink::new(alloc, ROOM)?;
    let status = pearl(alloc, words, &mut SureShelf::new(files), &mut sink);
    Ok(Ended {
        status,
        bytes: Vec::from_slice(alloc, sink.bytes())?,
    })
}

// How many whole lines at the front of both texts are the same.
fn first_difference(kept: &[u8], written: &[u8]) -> usize {
    let same = kept
        .iter()
        .zip(written)
        .take_while(|(one, other)| one == other);
    same.filter(|(byte, _)| **byte == b'\n').count()
}

// Whether a command of a run ended with status 0; says so where it didn't.
fn is_done(rt: &HostRuntime, run: &str, command: &str, ended: &Ended) -> io::Result<bool> {
    if ended.status == Status::Done {
        return Ok(true);
    }
    let code = ended.status.code();
    println!(rt; "{run}: {command} ends with status {code}")?;
    Ok(false)
}

// Whether a command of a run ended with status 0 and wrote the transcript that is kept; says so where it didn't.
fn writes(
    rt: &HostRuntime,
    run: &str,
    command: &str,
    ended: &Ended,
    kept: &[u8],
) -> io::Result<bool> {
    if !is_done(rt, run, command, ended)? {
        return Ok(false);
    }
    if ended.bytes.as_slice() == kept {
        return Ok(true);
    }
    let lines = first_difference(kept, ended.bytes.as_slice());
    println!(rt; "{run}: {command} differs behind the first {lines} lines")?;
    Ok(false)
}

// Whether a run ends as it is kept, from its source and from its object; says so, or what differs.
fn is_as_kept(rt: &HostRuntime, run: &str) -> io::Result<bool> {
    let source = read(rt, plant_of(run), "pearl")?;
    let journal = read(rt, run, "journal")?;
    let kept = read(rt, run, "transcript")?;
    let (plant, lines) = (source.as_slice(), journal.as_slice());
    let ran = command(rt.alloc(), &["run", "plant", "journal"], plant, lines)?;
    let made = command(rt.alloc(), &["compile", "plant"], plant, lines)?;
    let object = made.bytes.as_slice();
    let executed = command(rt.alloc(), &["exec", "plant", "journal"], object, lines)?;
    let as_kept = writes(rt, run, "run", &ran, kept.as_slice())?
        && is_done(rt, run, "compile", &made)?
        && writes(rt, run, "exec", &executed, kept.as_slice())?;
    if as_kept {
        println!(rt; "{run}: as kept")?;
    }
    Ok(as_kept)
}

// The words of `watch` with these names, which have `+` between them.
fn words_of_watch(alloc: Global, names: &str) -> Result<Vec<String>, AllocError> {
    let mut words = Vec::new(alloc);
    for word in ["watch", "plant", "journal"] {
        words.push(String::from_str(alloc, word)?)?;
    }
    for name in names.split('+') {
        words.push(String::from_str(alloc, name)?)?;
    }
    Ok(words)
}

// Whether these names, with `+` between them, are watched in a run as it is kept; says so, or what differs.
fn is_watched_as_kept(rt: &HostRuntime, run: &str, names: &str) -> io::Result<bool> {
    let source = read(rt, plant_of(run), "pearl")?;
    let journal = read(rt, run, "journal")?;
    let kept = read(rt, run, "watched")?;
    let made = command(
        rt.alloc(),
        &["compile", "plant"],
        source.as_slice(),
        b"".as_slice(),
    )?;
    let words = words_of_watch(rt.alloc(), names)?;
    let object = made.bytes.as_slice();
    let watched = carried_out(rt.alloc(), words.as_slice(), object, journal.as_slice())?;
    let as_kept = is_done(rt, run, "compile", &made)?
        && writes(rt, run, "watch", &watched, kept.as_slice())?;
    if as_kept {
        println!(rt; "{run}+{names}: as kept")?;
    }
    Ok(as_kept)
}

fn main(rt: HostRuntime) -> io::Result<ExitCode> {
    let mut all = true;
    for run in env::args(&rt)?.skip(1) {
        all &= match run.split_once('+') {
            Some((run, names)) => is_watched_as_kept(&rt, run, names)?,
            None => is_as_kept(&rt, run.as_str())?,
        };
    }
    Ok(if all {
        ExitCode::SUCCESS
    } else {
        ExitCode::FAILURE
    })
}
