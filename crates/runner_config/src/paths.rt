//! Joining of paths (docs/FORMATS.md, Paths).
ghost use Rattle.std.specs.Prelude.{◌≡◌, IfOk, string_bytes};
ghost use Rattle.runner_config.specs.Paths.{folder_of, joined};

use hel_lists::OutOfMemory;
use std::alloc::Global;

/// What stands before a path's last slash, and `.` where there is none.
pub fn folder_of(path: &str) -> &str
    ensures { result.now ≡ folder_of path.now }
{
    match path.rfind('/') {
        Some(at) => &path[..at],
        None => ".",
    }
}

/// The path `path` as it is seen from `folder`.
pub fn joined(alloc: Global, folder: &str, path: &str) -> Result<String, OutOfMemory>
    ensures { IfOk result (λ text. string_bytes text ≡ joined folder.now path.now) }
{
    if path.starts_with("/") || folder == "." {
        return Ok(String::from_str(alloc, path)?);
    }
    if path == "." {
        return Ok(String::from_str(alloc, folder)?);
    }
    Ok(format!(in alloc; "{folder}/{path}")?)
}
