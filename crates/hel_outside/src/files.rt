ghost use Rattle.std.specs.Prelude.{◌≡◌, ◌≢◌, ◌≤◌, ◌<◌, ℕ, List, Option, length, IfOk, IfSome};
ghost use Rattle.hel_outside.specs.Faults.{Rose, file_limit};

use std::alloc::{AllocError, Global};

/// The greatest length of a file that is read.
pub(crate) const FILE_LIMIT: usize = 16_777_216;

/// Why a file isn't read.
#[derive(Clone, Copy, Debug, PartialEq, Eq)]
pub enum FileRefusal {
    /// The files failed, and their count of faults rose.
    Failed,
    /// The file is longer than 16,777,216 bytes.
    TooLarge,
    OutOfMemory,
}

impl From<AllocError> for FileRefusal {
    ghost use Rattle.std.specs.Prelude.{◌≡◌};
    ghost use Rattle.hel_outside.specs.declared.files.FileRefusal.{FileRefusal};

    ghost from_gives = { λ _ e. e ≡ FileRefusal.OutOfMemory };

    fn from(_: AllocError) -> Self {
        FileRefusal::OutOfMemory
    }
}

/// Files by their paths (docs/RULES.md, The outside).
pub trait Files {
    /// How often a call has failed. The count stands still at its type's end.
    ghost faults: { Self → ℕ };

    /// What stands at a path, where the object tells it.
    ghost content: { Self → List ℕ → Option (List ℕ) };

    /// The path of the last read that failed.
    ghost failed_path: { Self → List ℕ };

    /// The whole file at a path. Where the content is told and longer than 16,777,216 bytes, a
    /// call that doesn't fail answers `TooLarge`.
    fn read(&mut self, alloc: Global, path: &str) -> Result<Vec<u8>, FileRefusal>
        ensures bytes { IfOk result (λ v.
            IfSome (content self.old path.now) (λ told. v.items ≡ told)) }
        ensures small { IfOk result (λ v. length v.items ≤ file_limit) }
        ensures large { result ≡ Err FileRefusal.TooLarge →
            IfSome (content self.old path.now) (λ told. file_limit < length told) }
        ensures same { (p : List ℕ) → content self.new p ≡ content self.old p }

        // A call answers Failed only where the count rose, and no other call changes the count
        // or the kept path.
        ensures rose { result ≡ Err FileRefusal.Failed → Rose (faults self.old) (faults self.new) }
        ensures kept { result ≡ Err FileRefusal.Failed → failed_path self.new ≡ path.now }
        ensures later { faults self.old ≤ faults self.new }
        ensures quiet { result ≢ Err FileRefusal.Failed → faults self.new ≡ faults self.old }
        ensures stays { result ≢ Err FileRefusal.Failed → failed_path self.new ≡ failed_path self.old };
}
