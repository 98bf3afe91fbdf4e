//! Runs E programs in vats, and writes what happened.
#![tactic(auto)]

use ev_base::{Memory, Seq, Str};
use ev_io::{StdSink, StdSource};
use ev_top::{Status, top};
use std::alloc::Global;
use std::env::Args;
use std::io::BufReader;
use std::process::ExitCode;
use std::{env, io};

/// The words of the command line, without the program's name.
fn words_of(alloc: Global, args: Args) -> Result<Seq<Str>, Memory> {
    let mut words = Seq::new(alloc);
    for word in args.skip(1) {
        words.push(Str::of(word))?;
    }
    Ok(words)
}

/// What the program answers, once it has its words.
fn run(rt: &HostRuntime, args: Args) -> Status {
    let Ok(words) = words_of(rt.alloc(), args) else {
        return Status::Memory;
    };
    let Ok(reader) = BufReader::new(rt.alloc(), rt.reader()) else {
        return Status::Memory;
    };
    let mut source = StdSource::new(reader);
    let mut sink = StdSink::new(io::writer(rt));
    top(rt.alloc(), &words, &mut source, &mut sink)
}

fn main(rt: HostRuntime) -> ExitCode {
    match env::args(&rt) {
        Ok(args) => ExitCode::from(run(&rt, args).code()),
        Err(error) if error.kind() == io::ErrorKind::OutOfMemory => ExitCode::from(11),
        Err(_) => ExitCode::from(1),
    }
}
