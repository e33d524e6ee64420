//! A store that is a list of files and directories, and notes the calls that change it.

ghost use Rattle.std.specs.Prelude.{◌≡◌, ◌∷◌, ◌++◌, ◌<◌, ◌≤◌, [], ℕ, List, IfOk, IsOk, OnOk, bytes_eq, length, map, string_bytes};
ghost use Rattle.std.specs.List.{list_any};
ghost use Rattle.std.specs.Path.{with_separator};
ghost use Rattle.store.specs.Calls.{Called};
ghost use Rattle.new_files.specs.Folders.{FileAt};
ghost use Rattle.command_tests.specs.Noted.{call_of};
ghost use Rattle.command_tests.specs.Listings.{AreNamesAt, Did, MayBe, creation as created, file_of, relisted, renames};

use crate::listed::{Listed, found, name_in, with_bytes, with_new, with_renamed, without};
use crate::noted_call::NotedCall;
use std::alloc::{AllocError, Global};
use std::io::ErrorKind;
use store::{PartStore, Reason, Store, StoreFault};

// A call is refused.
const REFUSED: StoreFault = StoreFault::Refused(Reason::Other(ErrorKind::Other));

/// A writer, with the path of its file.
#[derive(Drop)]
pub struct ListingWriter {
    path: String,
}

/// A file that is open for reading: its path, and the bytes that were read of it.
#[derive(Drop)]
pub struct ListingReader {
    path: String,
    given: Vec<u8>,
}

/// A list of files and directories, and the calls that were made of it and change it. What changes files or directories is done to the list,
/// and noted; a call that fails does neither. Nothing is created once something was renamed.
#[derive(Drop)]
pub struct Listing {
    pub alloc: Global,
    pub files: Vec<Listed>,
    pub calls: Vec<NotedCall>,
    /// Whether something was renamed.
    pub is_renamed: bool,
}

fn text_of(alloc: Global, text: &str) -> Result<String, AllocError>
    ensures { IfOk result (λ copy. string_bytes copy ≡ text.now) }
{
    String::from_str(alloc, text)
}

fn copied(alloc: Global, bytes: &[u8]) -> Result<Vec<u8>, AllocError>
    ensures { IfOk result (λ copy. copy.items ≡ bytes.now) }
{
    bytes.to_vec(alloc)
}

// Returns whether a directory has this path. The empty one is that of the program.
fn is_dir(files: &[Listed], path: &str) -> bool {
    path.is_empty() || found(files, path).is_some_and(|file| file.is_dir)
}

// Returns whether a file has this path.
fn is_file(files: &[Listed], path: &str) -> bool {
    found(files, path).is_some_and(|file| !file.is_dir)
}

// Returns whether a path is a name in a directory that is there.
fn has_place(files: &[Listed], path: &str) -> bool {
    match path.rsplit_once('/') {
        Some((parent, _)) => is_dir(files, parent),
        None => true,
    }
}

// Returns whether what is at `from` can be renamed: a file to the path of a file or to a new one, a directory to a new one.
fn can_rename(files: &[Listed], from: &str, to: &str) -> bool {
    let is_free = found(files, to).is_none();
    has_place(files, to)
        && (is_free && found(files, from).is_some() || is_file(files, from) && is_file(files, to))
}

// Returns the directory with a slash after it.
fn start_of(alloc: Global, dir: &str) -> Result<String, AllocError>
    ensures { IfOk result (λ start. string_bytes start ≡ with_separator dir.now) }
{
    match dir.as_bytes().last() {
        None | Some(b'/') => String::from_str(alloc, dir),
        _ => format!(in alloc; "{dir}/"),
    }
}

// Returns whether a name is among the names.
fn has_name(names: &[String], wanted: &str) -> bool
    ensures { result ≡ list_any (λ name. bytes_eq (string_bytes name) wanted.now) names.now }
{
    names.iter().any(|name| name.as_str() == wanted)
}

// Adds a name after the others.
fn push_name(alloc: Global, names: &mut Vec<String>, name: &str) -> Result<(), AllocError>
    ensures { IsOk result → map string_bytes names.new.items ≡ map string_bytes names.old.items ++ name.now ∷ [] }
{
    names.push(String::from_str(alloc, name)?)?;
    Ok(())
}

// Adds the name that a path has in a directory, if it has one there that is new.
fn add_name(
    alloc: Global,
    names: &mut Vec<String>,
    start: &str,
    path: &str,
) -> Result<(), AllocError>
    ensures { IsOk result → (files : List FileAt) (bytes : List ℕ) → AreNamesAt files start.now (map string_bytes names.old.items) → AreNamesAt (files ++ record { path = path.now; bytes = bytes } ∷ []) start.now (map string_bytes names.new.items) }
{
    match name_in(start, path) {
        None => Ok(()),
        Some(name) if has_name(names, name) => Ok(()),
        Some(name) => push_name(alloc, names, name),
    }
}

// Returns the names in a directory, each once. `start` is the directory with a slash after it.
fn names_in(alloc: Global, files: &[Listed], start: &str) -> Result<Vec<String>, AllocError>
    ensures { IfOk result (λ names. AreNamesAt (map file_of files.now) start.now (map string_bytes names.items)) }
{
    let mut names = Vec::new(alloc);
    for file in files {
        add_name(alloc, &mut names, start, &file.path)?;
    }
    Ok(names)
}

// Notes a call, and puts the files after it in the place of those before.
fn put(
    store: &mut Listing,
    call: NotedCall,
    files: Vec<Listed>,
    is_renamed: bool,
) -> Result<(), StoreFault>
    ensures { MayBe (map file_of store.old.files.items) store.old.is_renamed (call_of call) → map file_of files.items ≡ relisted (map file_of store.old.files.items) (call_of call) → is_renamed ≡ renames store.old.is_renamed (call_of call)
        → Called Did store.old (call_of call) result store.new }
{
    store.calls.push(call)?;
    store.files = files;
    store.is_renamed = is_renamed;
    Ok(())
}

// Notes a call that changes no file.
fn note(store: &mut Listing, call: NotedCall) -> Result<(), StoreFault>
    ensures { (relisted (map file_of store.old.files.items) (call_of call) ≡ map file_of store.old.files.items) → (renames store.old.is_renamed (call_of call) ≡ store.old.is_renamed)
        → MayBe (map file_of store.old.files.items) store.old.is_renamed (call_of call) → Called Did store.old (call_of call) result store.new }
{
    store.calls.push(call)?;
    Ok(())
}

// Returns the call that creates a directory or a file at this path.
fn creation(alloc: Global, path: &str, is_dir: bool) -> Result<NotedCall, AllocError>
    ensures { IfOk result (λ call. call_of call ≡ created is_dir path.now) }
{
    let path = String::from_str(alloc, path)?;
    Ok(if is_dir {
        NotedCall::CreateDir(path)
    } else {
        NotedCall::Create(path)
    })
}

// Creates a directory or a file.
fn create(store: &mut Listing, path: &str, is_dir: bool) -> Result<(), StoreFault>
    ensures { Called Did store.old (created is_dir path.now) result store.new }
{
    if store.is_renamed || found(&store.files, path).is_some() || !has_place(&store.files, path) {
        return Err(REFUSED);
    }
    let call = creation(store.alloc, path, is_dir)?;
    let files = with_new(store.alloc, &store.files, path, is_dir)?;
    put(store, call, files, false)
}

// Reads the next bytes of a file that has these. Returns an error if what was read before is not their beginning.
fn read_on(
    alloc: Global,
    file: &[u8],
    reader: &mut ListingReader,
    most: u64,
    bytes: &mut Vec<u8>,
) -> Result<(), StoreFault>
    ensures few { OnOk result (length bytes.new.items ≤ most) }
    ensures path { reader.new.path ≡ reader.old.path }
    ensures next { OnOk result (reader.new.given.items ≡ reader.old.given.items ++ bytes.new.items) }
    ensures end { OnOk result (length bytes.new.items < most → file.now ≡ reader.old.given.items ++ bytes.new.items) }
{
    if reader.given.len() > file.len() {
        return Err(REFUSED);
    }
    let (before, left) = file.split_at(reader.given.len());
    if before != reader.given.as_slice() {
        return Err(REFUSED);
    }
    let (next, _) = left.split_at(left.len().min(most as usize));
    *bytes = copied(alloc, next)?;
    reader.given.extend_from_slice(next)?;
    Ok(())
}

impl Store for Listing {
    ghost use Rattle.std.specs.Prelude.{map, string_bytes};
    ghost use Rattle.command_tests.specs.Listings.{Did, HoldsAt, did_both_on, did_nothing_on, file_of, standing_in};

    type Writer = ListingWriter;

    ghost did = { Did };

    ghost is_of = { λ writer path. string_bytes writer.path ≡ path };

    ghost holds = { λ state path found. HoldsAt (standing_in (map file_of state.files.items)) path found };

    ghost did_nothing = { λ state. did_nothing_on (map file_of state.files.items) state.is_renamed state.calls.items };

    ghost did_both = { λ old middle new first second one two. did_both_on (map file_of old.files.items) (map file_of middle.files.items) (map file_of new.files.items) old.is_renamed middle.is_renamed new.is_renamed old.calls.items middle.calls.items new.calls.items first second one two };

    fn read_dir(&self, path: &str) -> Result<Vec<String>, StoreFault> {
        if !is_dir(&self.files, path) {
            return Err(REFUSED);
        }
        let start = start_of(self.alloc, path)?;
        Ok(names_in(self.alloc, &self.files, &start)?)
    }

    fn read(&self, path: &str) -> Result<Vec<u8>, StoreFault> {
        match found(&self.files, path) {
            Some(file) if !file.is_dir => Ok(copied(self.alloc, &file.bytes)?),
            _ => Err(REFUSED),
        }
    }

    fn create_new(&mut self, path: &str) -> Result<ListingWriter, StoreFault> {
        let of = text_of(self.alloc, path)?;
        create(self, path, false)?;
        Ok(ListingWriter { path: of })
    }

    fn write(&mut self, writer: &mut ListingWriter, bytes: &[u8]) -> Result<(), StoreFault> {
        let path = text_of(self.alloc, &writer.path)?;
        let call = NotedCall::Write(path, copied(self.alloc, bytes)?);
        let files = with_bytes(self.alloc, &self.files, &writer.path, bytes)?;
        put(self, call, files, self.is_renamed)
    }

    fn sync_file(&mut self, writer: &mut ListingWriter) -> Result<(), StoreFault> {
        let path = text_of(self.alloc, &writer.path)?;
        note(self, NotedCall::SyncFile(path))
    }

    fn sync_dir(&mut self, path: &str) -> Result<(), StoreFault> {
        if !is_dir(&self.files, path) {
            return Err(REFUSED);
        }
        let path = text_of(self.alloc, path)?;
        note(self, NotedCall::SyncDir(path))
    }

    fn create_dir(&mut self, path: &str) -> Result<(), StoreFault> {
        create(self, path, true)
    }

    fn rename(&mut self, from: &str, to: &str) -> Result<(), StoreFault> {
        if !can_rename(&self.files, from, to) {
            return Err(REFUSED);
        }
        let call = NotedCall::Rename(text_of(self.alloc, from)?, text_of(self.alloc, to)?);
        let files = with_renamed(self.alloc, &self.files, from, to)?;
        put(self, call, files, true)
    }

    fn remove_file(&mut self, path: &str) -> Result<(), StoreFault> {
        if !is_file(&self.files, path) {
            return Err(REFUSED);
        }
        let call = NotedCall::Remove(text_of(self.alloc, path)?);
        let files = without(self.alloc, &self.files, path)?;
        put(self, call, files, self.is_renamed)
    }
}

impl PartStore for Listing {
    ghost use Rattle.std.specs.Prelude.{◌≡◌, string_bytes};

    type Reader = ListingReader;

    ghost has_read = { λ reader path bytes. (string_bytes reader.path ≡ path) × (reader.given.items ≡ bytes) };

    fn open(&self, path: &str) -> Result<ListingReader, StoreFault> {
        if !is_file(&self.files, path) {
            return Err(REFUSED);
        }
        Ok(ListingReader {
            path: text_of(self.alloc, path)?,
            given: Vec::new(self.alloc),
        })
    }

    fn expected_length(&self, reader: &ListingReader) -> u64 {
        match found(&self.files, &reader.path) {
            Some(file) => file.bytes.len() as u64,
            None => 0,
        }
    }

    fn read_next(
        &self,
        reader: &mut ListingReader,
        most: u64,
        bytes: &mut Vec<u8>,
    ) -> Result<(), StoreFault> {
        match found(&self.files, &reader.path) {
            Some(file) if !file.is_dir => read_on(self.alloc, &file.bytes, reader, most, bytes),
            _ => Err(REFUSED),
        }
    }
}
