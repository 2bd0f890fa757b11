ghost use Rattle.std.specs.Prelude.{◌≡◌, ◌≤◌, ◌<◌, length, IfOk, IfErr, None};
ghost use Rattle.hel_outside.specs.Faults.{file_limit};
ghost use Rattle.hel_outside.specs.RealFiles.{no_fault};

use crate::files::{FILE_LIMIT, FileRefusal, Files};
use std::alloc::Global;
use std::fs::File;
use std::io::{ErrorKind, Read};
use std::marker::Model;
use std::{io, rt};

/// The files of the system: `RealFiles::new(rt.alloc(), rt)` in `main`. It counts its errors, and
/// tells nothing of what it holds. A read copies the path first, so that want of memory for it is
/// answered before anything is read, and reads at most one byte more than it may give.
#[derive(Drop)]
pub struct RealFiles<R> {
    runtime: R,
    faults: u64,
    failed_path: String,
}

impl<R> Model for RealFiles<R> {
    ghost use Rattle.std.specs.Prelude.{string_bytes};
    ghost use Rattle.hel_outside.specs.RealFiles.{FilesFaults};

    ghost Value = { FilesFaults };

    ghost view = { λ s. record { faults = s.faults; failed_path = string_bytes s.failed_path } };
}

impl<R> RealFiles<R> {
    /// The files of a runtime, such as the `rt` of `main`.
    pub fn new(alloc: Global, runtime: R) -> RealFiles<R>
        ensures { result ≡ no_fault }
    {
        RealFiles {
            runtime,
            faults: 0,
            failed_path: String::new(alloc),
        }
    }

    /// How many reads have failed.
    pub fn faults(&self) -> u64
        ensures { result ≡ self.now.faults }
    {
        self.faults
    }

    /// The path of the last read that failed, and an empty one before the first.
    pub fn failed_path(&self) -> &str
        ensures { result.now ≡ self.now.failed_path }
    {
        self.failed_path.as_str()
    }
}

impl<R: rt::Files + Drop> Files for RealFiles<R> {
    ghost faults = { λ s. s.faults };

    ghost content = { λ _ _. None };

    ghost failed_path = { λ s. s.failed_path };

    fn read(&mut self, alloc: Global, path: &str) -> Result<Vec<u8>, FileRefusal> {
        let asked = String::from_str(alloc, path)?;
        match first_bytes(alloc, &self.runtime, path) {
            Ok(bytes) => within_limit(bytes),
            Err(e) if e.kind() == ErrorKind::OutOfMemory => Err(FileRefusal::OutOfMemory),
            Err(_) => {
                self.faults = self.faults.saturating_add(1);
                self.failed_path = asked;
                Err(FileRefusal::Failed)
            }
        }
    }
}

// The bytes of a file, up to one more than a read gives.
fn first_bytes<R: rt::Files>(alloc: Global, runtime: &R, path: &str) -> io::Result<Vec<u8>> {
    let mut bytes = Vec::new(alloc);
    let file = File::open(runtime, path)?;
    file.take(FILE_LIMIT as u64 + 1).read_to_end(&mut bytes)?;
    Ok(bytes)
}

// What was read, where it isn't longer than a read gives.
fn within_limit(bytes: Vec<u8>) -> Result<Vec<u8>, FileRefusal>
    ensures ok { IfOk result (λ v. (v.items ≡ bytes.items) × (length v.items ≤ file_limit)) }
    ensures err { IfErr result (λ e.
        (e ≡ FileRefusal.TooLarge) × (file_limit < length bytes.items)) }
{
    if bytes.len() > FILE_LIMIT {
        return Err(FileRefusal::TooLarge);
    }
    Ok(bytes)
}
