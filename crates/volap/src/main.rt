//! The program: runs a script from standard input, and prints the answers.
//!
//! It hands the words of the command line behind its own name, standard input and standard output to `olap`
//! of `olap_top`, and ends with the code of the status, 0 for `Done`; any other is also told as one word on
//! standard error. Words that are no text count as unknown ones, and where no memory is found for the words
//! the status is `NoMemory`.
//!
//! `main` has no clause of its own: what is proved is said of `olap`, over any source and sink. What the
//! streams of the process give and take is trusted, and what stands on standard error is tested only.
#![tactic(auto)]

use olap_top::{Status, olap};
use std::process::ExitCode;
use std::{env, io, mem};
use volap_io::{Quiet, StdSink, StdSource};

/// The words of the command line without the program's name. Words that are no text are none that
/// the program knows.
fn words(rt: &HostRuntime) -> Result<Vec<String>, Status> {
    let args = match env::args(rt) {
        Ok(args) => args,
        Err(e) if e.kind() == io::ErrorKind::OutOfMemory => return Err(Status::NoMemory),
        Err(_) => return Err(Status::BadWords),
    };
    let mut words = Vec::new(rt.alloc());
    for word in args.skip(1) {
        let Ok(()) = words.push(word) else {
            return Err(Status::NoMemory);
        };
    }
    Ok(words)
}

/// The word for how a call ended.
fn name_of(status: Status) -> &'static str {
    match status {
        Status::Done => "Done",
        Status::ReadFault => "ReadFault",
        Status::BadWords => "BadWords",
        Status::BadScript => "BadScript",
        Status::WriteFault => "WriteFault",
        Status::NoMemory => "NoMemory",
        Status::TooLarge => "TooLarge",
    }
}

/// Runs what the words ask, over standard input and output, and ends with the code of how it went.
fn main(rt: HostRuntime) -> ExitCode {
    let mut source = StdSource::new(rt.stdin());
    let mut sink = StdSink::new(io::writer(&rt));
    let status = match words(&rt) {
        Ok(words) => {
            let outcome = olap(
                &rt,
                rt.alloc(),
                words.as_slice(),
                &mut source,
                &mut sink,
                &Quiet,
            );
            let status = outcome.status;
            // The program ends, so what is left is not given back block by block.
            mem::forget(outcome);
            status
        }
        Err(status) => status,
    };
    if status != Status::Done {
        let name = name_of(status);
        let _ = eprintln!(rt; "volap: {name}");
    }
    ExitCode::from(status.code())
}
