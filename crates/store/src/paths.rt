//! Paths in a store.

ghost use Rattle.std.specs.Prelude.{◌≡◌, IfOk, string_bytes};
ghost use Rattle.std.specs.Path.{path_join};

use std::alloc::{AllocError, Global};
use std::path::Path;

/// Returns the path of a name in a directory.
pub fn join(alloc: Global, dir: &str, name: &str) -> Result<String, AllocError>
    ensures { IfOk result (λ path. string_bytes path ≡ path_join dir.now name.now) }
{
    Ok(Path::new(dir).join(alloc, name)?.into_string())
}
