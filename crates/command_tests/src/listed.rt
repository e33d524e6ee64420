//! Files and directories of a list.

ghost use Rattle.std.specs.Prelude.{◌≡◌, ◌↔◌, ◌==◌, ℕ, ◌∷◌, ◌++◌, [], IfOk, IsTrue, List, MatchOption, bytes_eq, map, not, string_bytes, true};
ghost use Rattle.std.specs.List.{find, list_all};
ghost use Rattle.std.specs.Option.{option_map};
ghost use Rattle.command_tests.specs.Listings.{file_of, is_below, longer, renamed as new_path, renamed_file, without as files_without};
ghost use Rattle.new_files.specs.Targets.{IsName};

use std::alloc::{AllocError, Global};

/// A file with its bytes, or a directory, which has none.
#[derive(Debug, Drop)]
pub struct Listed {
    pub path: String,
    pub is_dir: bool,
    pub bytes: Vec<u8>,
}

/// Returns the first of the files that has this path.
pub fn found<'a>(files: &'a [Listed], path: &str) -> Option<&'a Listed>
    ensures { option_map (λ file. file.now) result ≡ find (λ file. bytes_eq (string_bytes file.path) path.now) files.now }
{
    files.iter().find(|file| file.path.as_str() == path)
}

// Returns a copy of a file.
fn copied(alloc: Global, file: &Listed) -> Result<Listed, AllocError>
    ensures { IfOk result (λ copy. file_of copy ≡ file_of file.now) }
{
    Ok(Listed {
        path: String::from_str(alloc, &file.path)?,
        is_dir: file.is_dir,
        bytes: file.bytes.to_vec(alloc)?,
    })
}

/// Returns the files, and one more of no bytes.
pub fn with_new(
    alloc: Global,
    files: &[Listed],
    path: &str,
    is_dir: bool,
) -> Result<Vec<Listed>, AllocError>
    ensures { IfOk result (λ made. map file_of made.items ≡ map file_of files.now ++ record { path = path.now; bytes = [] } ∷ []) }
{
    let mut made = Vec::new(alloc);
    for file in files {
        made.push(copied(alloc, file)?)?;
    }
    let path = String::from_str(alloc, path)?;
    let bytes = Vec::new(alloc);
    made.push(Listed {
        path,
        is_dir,
        bytes,
    })?;
    Ok(made)
}

// Returns a copy of a file, with these bytes after its own if it has this path.
fn longer_of(alloc: Global, file: &Listed, path: &str, bytes: &[u8]) -> Result<Listed, AllocError>
    ensures { IfOk result (λ made. file_of made ≡ longer path.now bytes.now (file_of file.now)) }
{
    let mut copy = copied(alloc, file)?;
    if file.path.as_str() == path {
        copy.bytes.extend_from_slice(bytes)?;
    }
    Ok(copy)
}

/// Returns the files, with these bytes after those of the file at this path.
pub fn with_bytes(
    alloc: Global,
    files: &[Listed],
    path: &str,
    bytes: &[u8],
) -> Result<Vec<Listed>, AllocError>
    ensures { IfOk result (λ made. map file_of made.items ≡ map (longer path.now bytes.now) (map file_of files.now)) }
{
    let mut made = Vec::new(alloc);
    for file in files {
        made.push(longer_of(alloc, file, path, bytes)?)?;
    }
    Ok(made)
}

/// Returns the files of all other paths.
pub fn without(alloc: Global, files: &[Listed], path: &str) -> Result<Vec<Listed>, AllocError>
    ensures { IfOk result (λ made. map file_of made.items ≡ files_without path.now (map file_of files.now)) }
{
    let mut made = Vec::new(alloc);
    for file in files {
        if file.path.as_str() != path {
            made.push(copied(alloc, file)?)?;
        }
    }
    Ok(made)
}

// Returns these two texts, one after the other.
fn together(alloc: Global, front: &str, rest: &str) -> Result<String, AllocError>
    ensures { IfOk result (λ made. string_bytes made ≡ front.now ++ rest.now) }
{
    format!(in alloc; "{front}{rest}")
}

// Returns what goes on after this front of a text.
fn behind<'a>(text: &'a str, front: &str) -> Option<&'a str>
    ensures { MatchOption result ((rest : List ℕ) → text.now ≡ front.now ++ rest → ⊥) (λ rest. text.now ≡ front.now ++ rest.now) }
{
    text.strip_prefix(front)
}

// Returns whether a text is empty or goes on with a slash.
fn goes_on(text: &str) -> bool
    ensures { result ≡ is_below text.now }
{
    match text.as_bytes().first() {
        Some(byte) => *byte == b'/',
        None => true,
    }
}

// Returns what goes on after this front of a path, if the path is the front or a path in it.
fn below<'a>(path: &'a str, front: &str) -> Option<&'a str>
    ensures { MatchOption result ((rest : List ℕ) → path.now ≡ front.now ++ rest → is_below rest ≡ true → ⊥) (λ rest. (path.now ≡ front.now ++ rest.now) × (is_below rest.now ≡ true)) }
{
    match behind(path, front) {
        Some(rest) if goes_on(rest) => Some(rest),
        _ => None,
    }
}

// Returns the path at which a path is if what is at `from`, a file or a directory, was renamed.
fn renamed(alloc: Global, from: &str, to: &str, path: &str) -> Result<String, AllocError>
    ensures { IfOk result (λ made. string_bytes made ≡ new_path from.now to.now path.now) }
{
    match below(path, from) {
        Some(rest) => together(alloc, to, rest),
        None => String::from_str(alloc, path),
    }
}

// Returns a copy of a file, where it is if what is at `from` was renamed.
fn moved(alloc: Global, from: &str, to: &str, file: &Listed) -> Result<Listed, AllocError>
    ensures { IfOk result (λ made. file_of made ≡ renamed_file from.now to.now (file_of file.now)) }
{
    Ok(Listed {
        path: renamed(alloc, from, to, &file.path)?,
        is_dir: file.is_dir,
        bytes: file.bytes.to_vec(alloc)?,
    })
}

/// Returns the files where the one at `from`, or the directory with all that is in it, is at `to`, and no other one is.
pub fn with_renamed(
    alloc: Global,
    files: &[Listed],
    from: &str,
    to: &str,
) -> Result<Vec<Listed>, AllocError>
    ensures { IfOk result (λ made. map file_of made.items ≡ map (renamed_file from.now to.now) (files_without to.now (map file_of files.now))) }
{
    let kept = without(alloc, files, to)?;
    let mut made = Vec::new(alloc);
    for file in &kept {
        made.push(moved(alloc, from, to, file)?)?;
    }
    Ok(made)
}

// Returns whether a text has no slash.
fn has_no_slash(text: &str) -> bool
    ensures { result ≡ list_all (λ byte. not (byte == 47)) text.now }
{
    text.as_bytes().iter().all(|byte| *byte != b'/')
}

// Returns whether a text is a name: it is not empty, and has no slash.
fn is_name(text: &str) -> bool
    ensures { IsTrue result ↔ IsName text.now }
{
    !text.is_empty() && has_no_slash(text)
}

/// Returns the name that a path has in a directory, if it is one in it. `start` is the directory with a slash after it.
pub fn name_in<'a>(start: &str, path: &'a str) -> Option<&'a str>
    ensures { MatchOption result ((name : List ℕ) → IsName name → path.now ≡ start.now ++ name → ⊥) (λ name. IsName name.now × (path.now ≡ start.now ++ name.now)) }
{
    match behind(path, start) {
        Some(name) if is_name(name) => Some(name),
        _ => None,
    }
}
