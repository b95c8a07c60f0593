// The program: its words, files and standard output, handed to the top call.
#![tactic(auto)]

mod out_sink;
mod shelf;

use out_sink::OutSink;
use pearl_io::Failed;
use pearl_top::status::Status;
use pearl_top::top::pearl;
use shelf::FileShelf;
use std::process::ExitCode;
use std::{env, io};

// The exit status where there is no memory for the words, and where they can't be had for another cause.
const NO_MEMORY: u8 = 7;

const NO_WORDS: u8 = 10;

fn main(rt: HostRuntime) -> ExitCode {
    let args = match env::args(&rt) {
        Ok(args) => args,
        Err(error) if error.kind() == io::ErrorKind::OutOfMemory => return ExitCode::from(
            NO_MEMORY,
        ),
        Err(_) => return ExitCode::from(NO_WORDS),
    };
    let mut words = Vec::new(rt.alloc());
    for word in args.skip(1) {
        if words.push(word).is_err() {
            return ExitCode::from(NO_MEMORY);
        }
    }
    let mut shelf = FileShelf::new(&rt);
    let mut sink = OutSink::new(rt.alloc(), &rt);
    let status = pearl(rt.alloc(), words.as_slice(), &mut shelf, &mut sink);
    let status = match sink.flush() {
        Ok(()) => status,
        Err(Failed) => Status::WriteFault,
    };
    ExitCode::from(status.code())
}
