//! Files in memory.

ghost use Rattle.std.specs.Prelude.{◌≡◌, ◌≤◌, ◌↔◌, [], ◌∷◌, ◌++◌, Some, None, IsTrue, IfOk, OnOk, OnErr, IsErrOf, vec_len};
ghost use Rattle.std.specs.FinMap as map;
ghost use Rattle.std.specs.Bool.{OnTrue};
ghost use Rattle.rl_base.specs.Asked.{AsksFor};
ghost use Rattle.rl_base.specs.Faults.{Rose};
ghost use Rattle.rl_base.specs.MemFiles.{next_fails, after_read};
ghost use Rattle.rl_base.specs.ReadAnswer.{ReadAnswer};

use crate::file_table::FileTable;
use crate::files::{Files, ReadEnd};
use std::alloc::{AllocError, Global};
use std::marker::Model;

/// Files in memory. Reads of chosen numbers fail.
///
/// Reads and faults are counted in `u64`s, which stay at their last value.
#[derive(Drop)]
pub struct MemFiles {
    alloc: Global,
    files: FileTable,
    fails: Vec<u32>,
    reads: u64,
    faults: u64,
}

impl Model for MemFiles {
    ghost use Rattle.rl_base.specs.MemFiles.{FilesState, files_state_code};

    ghost Value = { FilesState };

    ghost coded = { files_state_code };

    ghost view = { λ a. record { files = a.files; fails = a.fails.items; reads = a.reads; faults = a.faults } };
}

impl MemFiles {
    /// No files, and no read that fails.
    pub fn new(alloc: Global) -> MemFiles
        ensures { result ≡ record { files = map.empty; fails = []; reads = 0; faults = 0 } }
    {
        MemFiles {
            alloc,
            files: FileTable::new(alloc),
            fails: Vec::new(alloc),
            reads: 0,
            faults: 0,
        }
    }

    /// Sets the file of one path, over one that is there. A refusal changes nothing.
    pub fn add(&mut self, path: &str, bytes: &[u8]) -> Result<(), AllocError>
        ensures ok { OnOk result (self.new ≡ record self.old { files = map.insert self.old.files path.now bytes.now }) }
        ensures err { OnErr result (self.new ≡ self.old) }
    {
        self.files.set(self.alloc, path, bytes)
    }

    /// Makes the read with this number fail, counted from 1 since this was made. A refusal
    /// changes nothing.
    pub fn fail_at(&mut self, call: u32) -> Result<(), AllocError>
        ensures ok { OnOk result (self.new ≡ record self.old { fails = self.old.fails ++ call ∷ [] }) }
        ensures err { OnErr result (self.new ≡ self.old) }
    {
        self.fails.push(call)?;
        Ok(())
    }

    // Whether the next read is one of those that fail.
    fn next_fails(&self) -> bool
        ensures { result ≡ next_fails self.now }
    {
        let next = self.reads.saturating_add(1);
        self.fails.iter().any(|call| u64::from(*call) == next)
    }

    // Counts one more read, and a fault if it is one that fails.
    fn count_read(&mut self) -> bool
        ensures state { self.new ≡ after_read self.old }
        ensures fails { result ≡ next_fails self.old }
        ensures counted { self.old.faults ≤ self.new.faults }
        ensures rose { OnTrue result (Rose self.old.faults self.new.faults) }
    {
        let fails = self.next_fails();
        self.reads = self.reads.saturating_add(1);
        if fails {
            self.faults = self.faults.saturating_add(1);
        }
        fails
    }
}

impl Files for MemFiles {
    ghost holds = { λ s. Some s.files };

    ghost asked = { λ _. None };

    ghost faults = { λ s. s.faults };

    /// Fails exactly at the numbers that were given to `fail_at`, whether the path is there or
    /// not, and raises the faults at no other read.
    fn read(&mut self, alloc: Global, path: &str, limit: u32) -> Result<Vec<u8>, ReadEnd>
        ensures state { self.new ≡ after_read self.old }
        ensures fails { IsErrOf result ReadEnd.Failed ↔ IsTrue (next_fails self.old) }

        // What every reader of files promises.
        ensures held { self.new.files ≡ self.old.files }
        ensures asked { AsksFor None path.now result None }
        ensures counted { self.old.faults ≤ self.new.faults }
        ensures answer { ReadAnswer (Some self.old.files) path.now limit result }
        ensures short { IfOk result (λ bytes. vec_len bytes ≤ limit) }
        ensures failed { IsErrOf result ReadEnd.Failed → Rose self.old.faults self.new.faults }
    {
        if self.count_read() {
            return Err(ReadEnd::Failed);
        }
        self.files.read(alloc, path, limit)
    }
}

#[cfg(test)]
mod tests {
    use super::*;
    use crate::files::tests::is_answer;
    use std::test::Fail;

    #[test]
    fn reads_what_was_added_and_fails_at_the_given_numbers(rt: HostRuntime) -> Result<(), Fail> {
        let mut files = MemFiles::new(rt.alloc());
        files.add("a", b"one")?;
        files.add("b", b"")?;
        files.add("a", b"three")?;
        files.fail_at(5)?;
        files.fail_at(4)?;
        let rows: [(&str, u32, Result<&[u8], ReadEnd>); 8] = [
            ("a", 5, Ok(b"three")),
            ("a", 4, Err(ReadEnd::TooLong)),
            ("c", 5, Err(ReadEnd::Missing)),
            ("a", 5, Err(ReadEnd::Failed)),
            ("c", 5, Err(ReadEnd::Failed)),
            ("a", 6, Ok(b"three")),
            ("b", 0, Ok(b"")),
            ("A", 5, Err(ReadEnd::Missing)),
        ];
        for (path, limit, want) in rows {
            let answer = files.read(rt.alloc(), path, limit);
            assert!(rt; is_answer(&answer, &want), "at {path} {limit}");
        }
        assert_eq!(rt; files.faults, 2);
        Ok(())
    }
}
