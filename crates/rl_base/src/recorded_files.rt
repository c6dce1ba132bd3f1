//! Files that keep the paths of their reads.

ghost use Rattle.std.specs.Prelude.{◌≡◌, ◌≤◌, [], ◌∷◌, ◌++◌, Some, IfOk, OnOk, OnErr, IsErrOf, vec_len};
ghost use Rattle.rl_base.specs.Asked.{AsksFor};
ghost use Rattle.rl_base.specs.Faults.{Rose};
ghost use Rattle.rl_base.specs.ReadAnswer.{ReadAnswer};

use crate::files::{Files, ReadEnd};
use std::alloc::{AllocError, Global};
use std::marker::Model;

/// Files that keep the path of each read, in order.
#[derive(Drop)]
pub struct RecordedFiles<F> {
    alloc: Global,
    files: F,
    paths: Vec<String>,
}

impl<F> Model for RecordedFiles<F> {
    ghost use Rattle.std.specs.Prelude.{map, string_bytes};
    ghost use Rattle.rl_base.specs.RecordedFiles.{FilesRecorded, files_recorded_code};

    ghost Value = { FilesRecorded F };

    ghost coded = { files_recorded_code F.code };

    ghost view = { λ recorded. record { files = recorded.files; paths = map string_bytes recorded.paths.items } };
}

impl<F> RecordedFiles<F> {
    /// These files, of which no read is kept yet.
    pub fn new(alloc: Global, files: F) -> RecordedFiles<F>
        ensures { result ≡ record { files = files; paths = [] } }
    {
        RecordedFiles {
            alloc,
            files,
            paths: Vec::new(alloc),
        }
    }

    // Keeps a path. A refusal changes nothing.
    fn keep(&mut self, path: &str) -> Result<(), AllocError>
        ensures ok { OnOk result (self.new ≡ record self.old { paths = self.old.paths ++ path.now ∷ [] }) }
        ensures err { OnErr result (self.new ≡ self.old) }
    {
        let path = String::from_str(self.alloc, path)?;
        self.paths.push(path)?;
        Ok(())
    }
}

impl<F: Files> Files for RecordedFiles<F> {
    ghost holds = { λ recorded. F.holds recorded.files };

    ghost asked = { λ recorded. Some recorded.paths };

    ghost faults = { λ recorded. F.faults recorded.files };

    /// Keeps the path and then reads. Where memory is wanting for the path it does neither, and
    /// answers OutOfMemory.
    fn read(&mut self, alloc: Global, path: &str, limit: u32) -> Result<Vec<u8>, ReadEnd>
        ensures held { F.holds self.new.files ≡ F.holds self.old.files }
        ensures asked { AsksFor (Some self.old.paths) path.now result (Some self.new.paths) }
        ensures counted { F.faults self.old.files ≤ F.faults self.new.files }
        ensures answer { ReadAnswer (F.holds self.old.files) path.now limit result }
        ensures short { IfOk result (λ bytes. vec_len bytes ≤ limit) }
        ensures failed { IsErrOf result ReadEnd.Failed → Rose (F.faults self.old.files) (F.faults self.new.files) }
    {
        self.keep(path)?;
        self.files.read(alloc, path, limit)
    }
}

#[cfg(test)]
mod tests {
    use super::*;
    use crate::files::tests::is_answer;
    use crate::mem_files::MemFiles;
    use std::test::Fail;

    #[test]
    fn keeps_the_path_of_each_read(rt: HostRuntime) -> Result<(), Fail> {
        let mut files = MemFiles::new(rt.alloc());
        files.add("a", b"one")?;
        files.fail_at(3)?;
        let mut recorded = RecordedFiles::new(rt.alloc(), files);
        let rows: [(&str, Result<&[u8], ReadEnd>); 4] = [
            ("a", Ok(b"one")),
            ("b", Err(ReadEnd::Missing)),
            ("a", Err(ReadEnd::Failed)),
            ("a", Ok(b"one")),
        ];
        for (path, want) in rows {
            let answer = recorded.read(rt.alloc(), path, 3);
            assert!(rt; is_answer(&answer, &want), "at {path}");
        }
        assert!(rt;
            recorded
                .paths
                .iter()
                .map(|path| path.as_str())
                .eq(rows.iter().map(|row| row.0))
        );
        Ok(())
    }
}
