//! Where a new file or folder is written.

use std::alloc::{AllocError, Global};
use std::marker::Model;
use store::join;

/// A name in a directory, and the name with `.tmp` after it, under which a file or a folder is written before it is whole.
#[derive(Debug, Drop)]
pub struct Target<'a> {
    parent: &'a str,
    path: String,
    unfinished: String,
}

impl<'a> Model for Target<'a> {
    ghost use Rattle.std.specs.Prelude.{◌≡◌, string_bytes, true};
    ghost use Rattle.store.specs.Disk.{is_in};
    ghost use Rattle.new_files.specs.Targets.{TargetPaths, unfinished_of};

    ghost Value = { TargetPaths };

    ghost view = { λ t. record { parent = t.parent.now; path = string_bytes t.path; unfinished = string_bytes t.unfinished } };

    ghost invariant = { λ t. (is_in t.parent.now (string_bytes t.path) ≡ true) × (string_bytes t.unfinished ≡ unfinished_of (string_bytes t.path)) };
}

impl<'a> Target<'a> {
    ghost use Rattle.std.specs.Prelude.{◌≡◌, IfOk, true};
    ghost use Rattle.store.specs.Disk.{is_in};
    ghost use Rattle.new_files.specs.Targets.{IsName, target, unfinished_of};

    /// Returns the target of this name in a directory.
    pub fn new(alloc: Global, parent: &'a str, name: &str) -> Result<Target<'a>, AllocError>
        requires { IsName name.now }
        ensures { IfOk result (λ made. made ≡ target parent.now name.now) }
    {
        let path = join(alloc, parent, name)?;
        let unfinished = format!(in alloc; "{path}.tmp")?;
        Ok(Target {
            parent,
            path,
            unfinished,
        })
    }

    /// Borrows the directory that it is in.
    pub fn parent(&self) -> &str
        ensures { result.now ≡ self.now.parent }
    {
        self.parent
    }

    /// Borrows its path, a name in the directory.
    pub fn path(&self) -> &str
        ensures path { result.now ≡ self.now.path }
        ensures inside { is_in self.now.parent self.now.path ≡ true }
        ensures behind { self.now.unfinished ≡ unfinished_of self.now.path }
    {
        &self.path
    }

    /// Borrows the path at which it is written: its own with `.tmp` after it.
    pub fn unfinished(&self) -> &str
        ensures path { result.now ≡ self.now.unfinished }
        ensures behind { self.now.unfinished ≡ unfinished_of self.now.path }
    {
        &self.unfinished
    }
}
