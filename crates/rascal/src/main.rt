//! The command `rascal`.
#![tactic(auto)]

use rl_base::{HostFiles, HostSink};
use rl_main::{Status, run};
use std::io::ErrorKind;
use std::process::ExitCode;
use std::rt::Env;
use std::{env, io};

/// The exit status where the machine does not give the words.
const NO_WORDS: u8 = 72;

/// Runs the command over the files and the standard streams of the machine, and exits with the code of its status.
fn main(rt: HostRuntime) -> ExitCode {
    let code = match words(&rt) {
        Ok(words) => {
            let mut files = HostFiles::new(&rt);
            let mut out = HostSink::new(rt.stdout());
            let mut err = HostSink::new(rt.stderr());
            run(rt.alloc(), words.as_slice(), &mut files, &mut out, &mut err).code()
        }
        Err(error) => match error.kind() {
            ErrorKind::OutOfMemory => Status::OutOfMemory.code(),
            _ => NO_WORDS,
        },
    };
    ExitCode::from(code)
}

/// The words behind the program's name.
fn words<R: Env + AllocGlobal>(rt: &R) -> io::Result<Vec<String>> {
    Ok(env::args(rt)?.skip(1).collect(rt.alloc())?)
}
