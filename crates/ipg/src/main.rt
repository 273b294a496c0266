//! The program: words, files and output of this machine, handed to `run`.
#![tactic(auto)]

#[cfg(test)]
mod tests;

use ipg_app::run::run;
use ipg_app_text::status::Status;
use ipg_outside::{DiskFiles, StdSink};
use std::alloc::AllocError;
use std::io::ErrorKind;
use std::process::ExitCode;
use std::{env, io};

fn main(rt: HostRuntime) -> ExitCode {
    let status = match answer(&rt) {
        Ok(status) => status,
        Err(_) => Status::Memory,
    };
    ExitCode::from(status.code())
}

fn answer(rt: &HostRuntime) -> Result<Status, AllocError> {
    let words = words(rt)?;
    let mut files = DiskFiles::new(rt);
    let mut out = StdSink::new(io::writer(rt));
    Ok(run(rt.alloc(), &words, &mut files, &mut out))
}

/// The words of the command line without the program's name. Words that are no text are no words.
fn words(rt: &HostRuntime) -> Result<Vec<String>, AllocError> {
    match env::args(rt) {
        Ok(args) => args.skip(1).collect(rt.alloc()),
        Err(error) if error.kind() == ErrorKind::OutOfMemory => Err(AllocError),
        Err(_) => Ok(Vec::new(rt.alloc())),
    }
}
