//! The program `magma`: it answers the script on standard input by a transcript on standard output, and keeps its store in a folder.
//!
//! Everything that matters stands in `mg_run`; here the real streams and the host of the real folder are made.
#![tactic(auto)]

use mg_io::{StdSink, StdSource};
use mg_model::Fault;
use mg_realdisk::RealHost;
use mg_run::{Ending, Ran, alone, end_program, refused};
use std::alloc::AllocError;
use std::process::ExitCode;
use std::{env, io};

fn main(rt: HostRuntime) -> ExitCode {
    let ran = match run(&rt) {
        Ok(ran) => ran,
        Err(_) => refused(Fault::NoMemory),
    };
    let mut error = StdSink::new(rt.stderr());
    // Where standard error takes nothing, the status still tells.
    let Ending { code, said: _ } = end_program(rt.alloc(), &ran, &mut error);
    code
}

/// The run that the words ask for, over the folder that the first one names.
fn run(rt: &HostRuntime) -> Result<Ran, AllocError> {
    let words = words_of(rt)?;
    let folder = match words.first() {
        Some(folder) => String::from_str(rt.alloc(), folder.as_str())?,
        None => String::new(rt.alloc()),
    };
    let mut host = RealHost::new(rt.clone()?, folder);
    let mut input = StdSource::new(rt.stdin());
    let mut out = StdSink::new(rt.stdout());
    Ok(alone(
        rt.alloc(),
        words.as_slice(),
        &mut input,
        &mut out,
        &mut host,
    ))
}

/// The words after the program's name. Words that are not all text give none, which are bad words too.
fn words_of(rt: &HostRuntime) -> Result<Vec<String>, AllocError> {
    match env::args(rt) {
        Ok(words) => words.skip(1).collect(rt.alloc()),
        Err(error) if error.kind() == io::ErrorKind::OutOfMemory => Err(AllocError),
        Err(_) => Ok(Vec::new(rt.alloc())),
    }
}
