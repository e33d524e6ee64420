//! Where the unpacked log is written.

ghost use Rattle.std.specs.Prelude.{◌≡◌, ◌==◌, IfOk, IfSome, OnOk, Some, false};
ghost use Rattle.std.specs.List.{list_any};
ghost use Rattle.std.specs.Path.{path_file_name, path_parent, slash};
ghost use Rattle.new_files.specs.Targets.{IsName, unfinished_of};
ghost use Rattle.unpack_command.specs.Folders.{IsNoLogName, IsOut};

use answers::Fault;
use log_directory::plan_log;
use new_files::{Target, written};
use std::alloc::Global;
use std::path::Path;
use std::slice;
use store::{Reason, Store, StoreFault};

// Returns whether a text has a slash.
fn has_slash(text: &str) -> bool
    ensures { result ≡ list_any (λ byte. byte == slash) text.now }
{
    text.as_bytes().iter().any(|byte| *byte == b'/')
}

// Splits a path into the directory that it is in, and its name.
#[tactic(auto, using(crate::proofs::Inside::is_some_name))]
fn parts_of(out: &str) -> Option<(&str, &str)>
    ensures parent { IfSome result (λ parts. path_parent out.now ≡ Some parts.0.now) }
    ensures name { IfSome result (λ parts. path_file_name out.now ≡ Some parts.1.now) }
    ensures is_name { IfSome result (λ parts. IsName parts.1.now) }
{
    let path = Path::new(out);
    let name = path.file_name()?;
    if name.is_empty() || has_slash(name) {
        // not reached: these are no names of files
        return None;
    }
    let parent = path.parent()?.as_str();
    Some((parent, name))
}

// Returns whether a log has a file or a directory of this name: whether it is that of a segment or of a checkpoint.
#[tactic(auto, using(crate::proofs::LogNames::no_log_name))]
fn is_of_log(alloc: Global, name: &str) -> Result<bool, Fault>
    ensures { IfOk result (λ of_log. of_log ≡ false → IsNoLogName name.now) }
{
    let name = String::from_str(alloc, name)?;
    // a name alone has no gap
    let plan = plan_log(alloc, slice::from_ref(&name))?;
    Ok(plan.checkpoint.is_some() || !plan.segments.is_empty())
}

// Returns `CannotWrite` with the path `out` if its name is that of a file or directory of a log: in the directory of one, it would be taken
// for a part of it.
fn check_name(alloc: Global, out: &str, name: &str) -> Result<(), Fault>
    ensures { OnOk result (IsNoLogName name.now) }
{
    if is_of_log(alloc, name)? {
        let refused = StoreFault::Refused(Reason::LogName);
        return Err(Fault::cannot_write(alloc, out, refused));
    }
    Ok(())
}

// Returns `Exists` with the path of the folder of this name, or else of the unfinished one, if it exists; `CannotWrite` with the latter if
// the names of the directory cannot be read.
fn check_free<S: Store>(
    alloc: Global,
    store: &S,
    target: &Target<'_>,
    name: &str,
) -> Result<(), Fault> {
    // a name alone is in the directory of the program
    let parent = target.parent();
    let dir = if parent.is_empty() { "." } else { parent };
    let names = written(alloc, target.unfinished(), store.read_dir(dir))?;
    if names.iter().any(|taken| taken.as_str() == name) {
        return Err(Fault::exists(alloc, target.path()));
    }
    if names
        .iter()
        .any(|taken| taken.as_str().strip_suffix(".tmp") == Some(name))
    {
        return Err(Fault::exists(alloc, target.unfinished()));
    }
    Ok(())
}

/// Returns the target of the new folder at the path `out`. Returns `Exists` if it exists, or the unfinished one, or if its path has no
/// name, as that of a root or of the directory above; `CannotWrite` if its name is that of a segment or of a checkpoint, which is found
/// before anything is read.
pub(crate) fn free_target<'a, S: Store>(
    alloc: Global,
    store: &S,
    out: &'a str,
) -> Result<Target<'a>, Fault>
    ensures out { IfOk result (λ t. IsOut out.now t.path) }
    ensures unfinished { IfOk result (λ t. t.unfinished ≡ unfinished_of t.path) }
{
    let Some((parent, name)) = parts_of(out) else {
        return Err(Fault::exists(alloc, out));
    };
    check_name(alloc, out, name)?;
    let target = Target::new(alloc, parent, name)?;
    check_free(alloc, store, &target, name)?;
    Ok(target)
}
