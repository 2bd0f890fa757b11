ghost use Rattle.std.specs.Prelude.{◌≡◌, ◌≢◌, ◌≤◌, ◌<◌, ◌⊎◌, [], length, map, IfOk, IsSomeAnd, Some, None, ◌==◌, find, if◌then◌else◌};
ghost use Rattle.std.specs.Option.{option_map, option_copied};
ghost use Rattle.std.specs.List.{list_any};
ghost use Rattle.std.specs.Str.{bytes_eq};
ghost use Rattle.hel_outside.specs.Faults.{file_limit};
ghost use Rattle.hel_outside.specs.MemFiles.{new_files, content_at, found_at, after_read, after_fault};

use crate::files::{FILE_LIMIT, FileRefusal, Files};
use hel_lists::{Items, OutOfMemory, Text};
use std::alloc::Global;
use std::marker::Model;

/// A file in memory.
#[derive(Debug, Drop)]
pub struct MemFile {
    pub path: Text,
    pub bytes: Items<u8>,
}

/// Files in memory. A read fails where its number, from 1, is one of those listed when the files
/// were made, or where no file has its path, and never otherwise. A read that wants for memory
/// has no number and changes nothing.
#[derive(Debug, Drop)]
pub struct MemFiles {
    files: Vec<MemFile>,
    failing: Vec<u64>,
    calls: u64,
    faults: u64,
    failed_path: String,
}

impl Model for MemFiles {
    ghost use Rattle.std.specs.Prelude.{string_bytes};
    ghost use Rattle.hel_outside.specs.MemFiles.{FilesInMemory};

    ghost Value = { FilesInMemory };

    ghost view = { λ s. record {
      files = s.files.items;
      failing = s.failing.items;
      calls = s.calls;
      faults = s.faults;
      failed_path = string_bytes s.failed_path;
    } };
}

impl MemFiles {
    /// Files of these paths and bytes, whose calls of these numbers are to fail.
    pub fn new(
        alloc: Global,
        files: &[(&str, &[u8])],
        failing: &[u64],
    ) -> Result<MemFiles, OutOfMemory>
        ensures { IfOk result (λ made. made ≡ new_files
            (map (λ f. record { path = f.0.now; bytes = f.1.now }) files.now) failing.now) }
    {
        Ok(MemFiles {
            files: copied_files(alloc, files)?,
            failing: failing.to_vec(alloc)?,
            calls: 0,
            faults: 0,
            failed_path: String::new(alloc),
        })
    }

    /// The bytes of the first file at a path.
    pub fn read(&mut self, alloc: Global, path: &str) -> Result<Vec<u8>, FileRefusal>
        ensures failed { result ≡ Err FileRefusal.Failed → found_at self.old path.now ≡ None }
        ensures fails { found_at self.old path.now ≡ None →
            (result ≡ Err FileRefusal.Failed) ⊎ (result ≡ Err FileRefusal.OutOfMemory) }
        ensures bytes { IfOk result (λ v. found_at self.old path.now ≡ Some v.items) }
        ensures small { IfOk result (λ v. length v.items ≤ file_limit) }
        ensures large { result ≡ Err FileRefusal.TooLarge →
            IsSomeAnd (found_at self.old path.now) (λ held. file_limit < length held) }

        ensures memory { result ≡ Err FileRefusal.OutOfMemory → self.new ≡ self.old }
        ensures fault { result ≡ Err FileRefusal.Failed → self.new ≡ after_fault self.old path.now }
        ensures answered { result ≢ Err FileRefusal.OutOfMemory → result ≢ Err FileRefusal.Failed →
            self.new ≡ after_read self.old }
        ensures later { self.old.faults ≤ self.new.faults }
    {
        let asked = String::from_str(alloc, path)?;
        let calls = self.calls.saturating_add(1);
        let Some(bytes) = found(&self.files, &self.failing, calls, path) else {
            self.calls = calls;
            self.faults = self.faults.saturating_add(1);
            self.failed_path = asked;
            return Err(FileRefusal::Failed);
        };
        if bytes.len() > FILE_LIMIT {
            self.calls = calls;
            return Err(FileRefusal::TooLarge);
        }
        let copy = bytes.to_vec(alloc)?;
        self.calls = calls;
        Ok(copy)
    }

    /// How many reads were answered.
    pub fn calls(&self) -> u64
        ensures { result ≡ self.now.calls }
    {
        self.calls
    }

    /// How many reads have failed.
    pub fn faults(&self) -> u64
        ensures { result ≡ self.now.faults }
    {
        self.faults
    }

    /// The path of the last read that failed, and an empty one before the first.
    pub fn failed_path(&self) -> &str
        ensures { result.now ≡ self.now.failed_path }
    {
        self.failed_path.as_str()
    }
}

impl Files for MemFiles {
    ghost faults = { λ s. s.faults };

    ghost content = { λ s p. content_at s.files p };

    ghost failed_path = { λ s. s.failed_path };

    fn read(&mut self, alloc: Global, path: &str) -> Result<Vec<u8>, FileRefusal> {
        MemFiles::read(self, alloc, path)
    }
}

fn copied_files(alloc: Global, files: &[(&str, &[u8])]) -> Result<Vec<MemFile>, OutOfMemory>
    ensures { IfOk result (λ v.
        v.items ≡ map (λ f. record { path = f.0.now; bytes = f.1.now }) files.now) }
{
    let mut copies = Vec::new(alloc);
    for (path, bytes) in files {
        copies.push(MemFile {
            path: Text::from_str(alloc, path)?,
            bytes: Items::from_vec(bytes.to_vec(alloc)?),
        })?;
    }
    Ok(copies)
}

// What the call of this number finds at a path.
fn found<'a>(files: &'a [MemFile], failing: &[u64], call: u64, path: &str) -> Option<&'a [u8]>
    ensures { option_map (λ b. b.now) result ≡
        (if list_any (λ n. n == call) failing.now then None else content_at files.now path.now) }
{
    if failing.contains(&call) {
        return None;
    }
    bytes_at(files, path)
}

// The bytes of the first file of this path.
fn bytes_at<'a>(files: &'a [MemFile], path: &str) -> Option<&'a [u8]>
    ensures { option_map (λ b. b.now) result ≡ content_at files.now path.now }
{
    let file = file_at(files, path)?;
    Some(file.bytes.as_slice())
}

fn file_at<'a>(files: &'a [MemFile], path: &str) -> Option<&'a MemFile>
    ensures { option_copied result ≡ find (λ f. bytes_eq f.path path.now) files.now }
{
    files.iter().find(|f| f.path.as_str() == path)
}
