//! The program `fmem`: the tool over the host's files and its standard output.
#![tactic(auto)]

use fm_io::{FreeGate, HostFiles, HostSink, HostSystem};
use fm_top::{Kept, Status, run_tool};
use std::io::ErrorKind;
use std::process::ExitCode;
use std::{env, io};

fn main(rt: HostRuntime) -> ExitCode {
    let words = match words(&rt) {
        Ok(words) => words,
        Err(_) => return ExitCode::from(Status::NoMemory.code()),
    };
    let mut files = HostFiles::new(rt.alloc(), HostSystem::new(&rt));
    let mut out = HostSink::new(rt.stdout());
    let mut kept = Kept::new();
    let status = run_tool(
        &rt,
        rt.alloc(),
        &words,
        &mut files,
        &mut out,
        &FreeGate,
        &mut kept,
    );
    ExitCode::from(status)
}

/// The words behind the program's name; none where one of them isn't UTF-8, which no command has.
fn words(rt: &HostRuntime) -> io::Result<Vec<String>> {
    match env::args(rt) {
        Ok(args) => Ok(args.skip(1).collect(rt.alloc())?),
        Err(e) if e.kind() == ErrorKind::InvalidData => Ok(Vec::new(rt.alloc())),
        Err(e) => Err(e),
    }
}
