//! Judges the history that standard input holds: what `evat check` does, and nothing else.
#![tactic(auto)]

use ev_check_text::check_source;
use ev_io::{Status, StdSink, StdSource};
use std::io;
use std::io::BufReader;
use std::process::ExitCode;

/// The status of a judgement of what standard input holds.
fn check_input(rt: &HostRuntime) -> Status {
    let Ok(reader) = BufReader::new(rt.alloc(), rt.reader()) else {
        return Status::Memory;
    };
    let mut source = StdSource::new(reader);
    let mut sink = StdSink::new(io::writer(rt));
    check_source(rt.alloc(), &mut source, &mut sink)
}

fn main(rt: HostRuntime) -> ExitCode {
    ExitCode::from(check_input(&rt).code())
}
