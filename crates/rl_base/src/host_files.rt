//! The files of the machine.

ghost use Rattle.std.specs.Prelude.{◌≡◌, ◌≢◌, ◌≤◌, ◌↔◌, ◌⊎◌, ℕ, None, IfOk, IsErrOf, vec_len};
ghost use Rattle.std.specs.IoError.{error_kind};
ghost use Rattle.rl_base.specs.Asked.{AsksFor};
ghost use Rattle.rl_base.specs.Faults.{Rose};
ghost use Rattle.rl_base.specs.HostFiles.{faults_after_read};

use crate::files::{Files, ReadEnd};
use std::alloc::Global;
use std::io::{Error, ErrorKind, Read};
use std::marker::Model;
use std::{fs, rt};

/// The files of the machine. What they hold and what was asked of them is not told: contracts see
/// only the count of faults.
///
/// A file that does not exist is Missing. Every other fault of the machine is Failed, as a folder
/// in the place of a file, or a path through a file. Want of memory is OutOfMemory. Each Failed
/// raises the faults, a `u64` that stays at its last value.
#[derive(Drop)]
pub struct HostFiles<R> {
    runtime: R,
    faults: u64,
}

impl<R> Model for HostFiles<R> {
    ghost Value = { ℕ };

    ghost view = { λ files. files.faults };
}

impl<R: rt::Files> HostFiles<R> {
    /// The files that this runtime opens.
    pub fn new(runtime: R) -> HostFiles<R>
        ensures { result ≡ 0 }
    {
        HostFiles { runtime, faults: 0 }
    }
}

impl<R: rt::Files> Files for HostFiles<R> {
    ghost holds = { λ _. None };

    ghost asked = { λ _. None };

    ghost faults = { λ faults. faults };

    /// Reads no more than one byte past the limit.
    fn read(&mut self, alloc: Global, path: &str, limit: u32) -> Result<Vec<u8>, ReadEnd>
        // The faults rise at each Failed, and at no other answer.
        ensures faults { self.new ≡ faults_after_read self.old result }

        // What every reader of files promises.
        ensures asked { AsksFor None path.now result None }
        ensures counted { self.old ≤ self.new }
        ensures short { IfOk result (λ bytes. vec_len bytes ≤ limit) }
        ensures failed { IsErrOf result ReadEnd.Failed → Rose self.old self.new }
    {
        let answer = read_file(&self.runtime, alloc, path, limit);
        if let Err(ReadEnd::Failed) = &answer {
            self.faults = self.faults.saturating_add(1);
        }
        answer
    }
}

fn read_file<R: rt::Files>(
    runtime: &R,
    alloc: Global,
    path: &str,
    limit: u32,
) -> Result<Vec<u8>, ReadEnd>
    ensures { IfOk result (λ bytes. vec_len bytes ≤ limit) }
{
    let file = fs::open(runtime, path).map_err(|error| open_end(&error))?;
    let mut bytes = Vec::new(alloc);
    file.take(u64::from(limit) + 1)
        .read_to_end(&mut bytes)
        .map_err(|error| read_end(&error))?;
    if bytes.len() > limit as usize {
        return Err(ReadEnd::TooLong);
    }
    Ok(bytes)
}

// What it means that a file was not opened.
fn open_end(error: &Error) -> ReadEnd
    ensures missing { result ≡ ReadEnd.Missing ↔ error_kind error.now ≡ ErrorKind.NotFound }
    ensures memory { result ≡ ReadEnd.OutOfMemory ↔ error_kind error.now ≡ ErrorKind.OutOfMemory }
    ensures never { result ≢ ReadEnd.TooLong }
{
    match error.kind() {
        ErrorKind::NotFound => ReadEnd::Missing,
        _ => read_end(error),
    }
}

// What it means that an open file was not read.
fn read_end(error: &Error) -> ReadEnd
    ensures memory { result ≡ ReadEnd.OutOfMemory ↔ error_kind error.now ≡ ErrorKind.OutOfMemory }
    ensures failed { result ≡ ReadEnd.Failed ⊎ result ≡ ReadEnd.OutOfMemory }
{
    match error.kind() {
        ErrorKind::OutOfMemory => ReadEnd::OutOfMemory,
        _ => ReadEnd::Failed,
    }
}

#[cfg(test)]
mod tests {
    use super::*;
    use crate::files::tests::is_answer;
    use std::process;
    use std::test::Fail;

    #[test]
    fn reads_files_of_the_machine(rt: HostRuntime) -> Result<(), Fail> {
        let path = format!(in rt.alloc(); "/tmp/rl_base_{}", process::id(rt.process()))?;
        fs::write(&rt, path.as_str(), "hello")?;
        let mut files = HostFiles::new(rt.clone()?);
        let rows: [(&str, u32, Result<&[u8], ReadEnd>); 6] = [
            (path.as_str(), 5, Ok(b"hello")),
            (path.as_str(), 4, Err(ReadEnd::TooLong)),
            ("/dev/zero", 3, Err(ReadEnd::TooLong)),
            ("/dev/missing", 9, Err(ReadEnd::Missing)),
            ("/dev/null/inner", 9, Err(ReadEnd::Failed)),
            ("/dev", 9, Err(ReadEnd::Failed)),
        ];
        for (path, limit, want) in rows {
            let answer = files.read(rt.alloc(), path, limit);
            assert!(rt; is_answer(&answer, &want), "at {path} {limit}");
        }
        assert_eq!(rt; files.faults, 2);
        fs::remove_file(&rt, path.as_str())?;
        Ok(())
    }
}
