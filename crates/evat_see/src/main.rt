//! Answers questions on the history that standard input holds.
#![tactic(auto)]

use ev_base::{Memory, Seq, Str};
use ev_io::{StdSink, StdSource};
use ev_see_top::{SeeStatus, see};
use std::alloc::Global;
use std::env::Args;
use std::io::BufReader;
use std::process::ExitCode;
use std::{env, io};

/// The words of the command line, without the program's name.
fn words_of(alloc: Global, args: Args) -> Result<Seq<Str>, Memory> {
    let mut words = Seq::new(alloc);
    for word in args.skip(1) {
        words.push(Str::of(word))?;
    }
    Ok(words)
}

/// What the program answers, once it has its words.
fn answer(rt: &HostRuntime, args: Args) -> SeeStatus {
    let Ok(words) = words_of(rt.alloc(), args) else {
        return SeeStatus::Memory;
    };
    let Ok(reader) = BufReader::new(rt.alloc(), rt.reader()) else {
        return SeeStatus::Memory;
    };
    let mut source = StdSource::new(reader);
    let mut out = StdSink::new(io::writer(rt));
    let mut err = StdSink::new(rt.stderr());
    see(
        rt.alloc(),
        words.as_slice(),
        &mut source,
        &mut out,
        &mut err,
    )
}

fn main(rt: HostRuntime) -> ExitCode {
    match env::args(&rt) {
        Ok(args) => ExitCode::from(answer(&rt, args).code()),
        Err(error) if error.kind() == io::ErrorKind::OutOfMemory => ExitCode::from(11),
        Err(_) => ExitCode::from(1),
    }
}
