//! A table of files in memory.

ghost use Rattle.std.specs.Prelude.{◌≡◌, ◌≢◌, ◌≤◌, Some, IfOk, OnOk, OnErr, vec_len};
ghost use Rattle.std.specs.Option.{option_copied, option_map};
ghost use Rattle.std.specs.FinMap as map;
ghost use Rattle.rl_base.specs.Holds.{file_at};
ghost use Rattle.rl_base.specs.ReadAnswer.{ReadAnswer};

use crate::files::ReadEnd;
use std::alloc::{AllocError, Global};
use std::collections::BTreeMap;
use std::marker::Model;

// Files in memory, which contracts see as a map from paths to bytes.
#[derive(Drop)]
pub(crate) struct FileTable {
    files: BTreeMap<String, Vec<u8>>,
}

impl Model for FileTable {
    ghost use Rattle.rl_base.specs.Holds.{FileMap, file_map_code};

    ghost Value = { FileMap };

    ghost coded = { file_map_code };

    ghost use Rattle.rl_base.specs.FileTable.{files_of};

    ghost view = { λ table. files_of table.files.entries };
}

impl FileTable {
    pub(crate) fn new(alloc: Global) -> FileTable
        ensures { result ≡ map.empty }
    {
        FileTable {
            files: BTreeMap::new(alloc),
        }
    }

    // The bytes of a path's file, if there is one.
    fn get(&self, path: &str) -> Option<&Vec<u8>>
        ensures { option_map (λ bytes. bytes.items) (option_copied result) ≡ file_at self.now path.now }
    {
        self.files.get(path)
    }

    // A copy of a path's file, if there is one of at most `limit` bytes. It never fails.
    pub(crate) fn read(&self, alloc: Global, path: &str, limit: u32) -> Result<Vec<u8>, ReadEnd>
        ensures answer { ReadAnswer (Some self.now) path.now limit result }
        ensures short { IfOk result (λ bytes. vec_len bytes ≤ limit) }
        ensures never { result ≢ Err ReadEnd.Failed }
    {
        match self.get(path) {
            None => Err(ReadEnd::Missing),
            Some(bytes) if bytes.len() > limit as usize => Err(ReadEnd::TooLong),
            Some(bytes) => Ok(Vec::from_slice(alloc, bytes)?),
        }
    }

    // Sets the file of one path. A refusal changes nothing.
    pub(crate) fn set(&mut self, alloc: Global, path: &str, bytes: &[u8]) -> Result<(), AllocError>
        ensures ok { OnOk result (self.new ≡ map.insert self.old path.now bytes.now) }
        ensures err { OnErr result (self.new ≡ self.old) }
    {
        let key = String::from_str(alloc, path)?;
        let value = Vec::from_slice(alloc, bytes)?;
        self.files.insert(key, value)?;
        Ok(())
    }
}
