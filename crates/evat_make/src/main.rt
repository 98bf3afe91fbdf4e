//! Helps to write scripts.
#![tactic(auto)]

use ev_base::{Memory, Seq, Str};
use ev_io::{StdSink, StdSource};
use ev_make_top::{MakeStatus, make};
use std::alloc::Global;
use std::env::Args;
use std::io::BufReader;
use std::process::ExitCode;
use std::{env, io};

/// The words of the command line, without the program's name.
fn words_of(alloc: Global, args: Args) -> Result<Seq<Str>, Memory> {
    let mut words = Seq::new(alloc);
    for word in args.skip(1) {
        words.push(Str::of(word))?;
    }
    Ok(words)
}

/// How the program ends, once it has its words.
fn answer(rt: &HostRuntime, args: Args) -> MakeStatus {
    let Ok(words) = words_of(rt.alloc(), args) else {
        return MakeStatus::Memory;
    };
    let Ok(reader) = BufReader::new(rt.alloc(), rt.reader()) else {
        return MakeStatus::Memory;
    };
    let mut source = StdSource::new(reader);
    let mut out = StdSink::new(io::writer(rt));
    let mut err = StdSink::new(rt.stderr());
    make(
        rt.alloc(),
        words.as_slice(),
        &mut source,
        &mut out,
        &mut err,
    )
}

fn main(rt: HostRuntime) -> ExitCode {
    match env::args(&rt) {
        Ok(args) => ExitCode::from(answer(&rt, args).code()),
        Err(error) if error.kind() == io::ErrorKind::OutOfMemory => ExitCode::from(11),
        Err(_) => ExitCode::from(1),
    }
}
