//! A store that notes its calls, over the store in memory.

ghost use Rattle.std.specs.Prelude.{◌≡◌, ◌∷◌, ◌++◌, [], IfOk, OnErr, OnOk, string_bytes, ⊤};

use crate::checks::same;
use crate::noted_call::NotedCall;
use crate::runs::{APPEND, CHECKPOINT, CUT, Case, carried_out, shelf_of};
use crate::shelf::{Shelf, ShelfReader, ShelfWriter};
use head_replay::NoGate;
use std::alloc::Global;
use std::process::Abort;
use std::sync::Wait;
use std::thread::Threads;
use store::{PartStore, Store, StoreFault};

/// A writer, with the path of its file.
#[derive(Drop)]
pub struct NotedWriter {
    path: String,
    writer: ShelfWriter,
}

/// A shelf, with the calls that were made of it and change it. A call is noted before it is made.
#[derive(Drop)]
pub struct Noted {
    alloc: Global,
    shelf: Shelf,
    calls: Vec<NotedCall>,
}

fn note(calls: &mut Vec<NotedCall>, call: NotedCall) -> Result<(), StoreFault>
    ensures ok { OnOk result (calls.new.items ≡ calls.old.items ++ call ∷ []) }
    ensures err { OnErr result (calls.new.items ≡ calls.old.items) }
{
    Ok(calls.push(call)?)
}

fn text(alloc: Global, path: &str) -> Result<String, StoreFault>
    ensures { IfOk result (λ text. string_bytes text ≡ path.now) }
{
    Ok(String::from_str(alloc, path)?)
}

fn copied(alloc: Global, bytes: &[u8]) -> Result<Vec<u8>, StoreFault>
    ensures { IfOk result (λ copy. copy.items ≡ bytes.now) }
{
    Ok(bytes.to_vec(alloc)?)
}

impl Noted {
    /// Makes one of which no call was made.
    pub fn new(alloc: Global, shelf: Shelf) -> Noted {
        Noted {
            alloc,
            shelf,
            calls: Vec::new(alloc),
        }
    }

    /// Returns the calls in order.
    pub fn calls(&self) -> &[NotedCall] {
        &self.calls
    }
}

impl Store for Noted {
    ghost use Rattle.command_tests.specs.Noted.{IsNoted, noted_both, noted_nothing};

    type Writer = NotedWriter;

    ghost did = { λ old calls new. IsNoted old.calls.items calls new.calls.items };

    ghost is_of = { λ writer path. string_bytes writer.path ≡ path };

    ghost holds = { λ _ _ _. ⊤ };

    ghost did_nothing = { λ state. noted_nothing state.calls.items };

    ghost did_both = { λ old middle new first second one two. noted_both old.calls.items middle.calls.items new.calls.items first second one two };

    fn read_dir(&self, path: &str) -> Result<Vec<String>, StoreFault> {
        self.shelf.read_dir(path)
    }

    fn read(&self, path: &str) -> Result<Vec<u8>, StoreFault> {
        self.shelf.read(path)
    }

    fn create_new(&mut self, path: &str) -> Result<NotedWriter, StoreFault> {
        let text_of = text(self.alloc, path)?;
        note(&mut self.calls, NotedCall::Create(text(self.alloc, path)?))?;
        let writer = self.shelf.create_new(path)?;
        Ok(NotedWriter {
            path: text_of,
            writer,
        })
    }

    fn write(&mut self, writer: &mut NotedWriter, bytes: &[u8]) -> Result<(), StoreFault> {
        let path = text(self.alloc, writer.path.as_str())?;
        let bytes_of = copied(self.alloc, bytes)?;
        note(&mut self.calls, NotedCall::Write(path, bytes_of))?;
        self.shelf.write(&mut writer.writer, bytes)
    }

    fn sync_file(&mut self, writer: &mut NotedWriter) -> Result<(), StoreFault> {
        let path = text(self.alloc, writer.path.as_str())?;
        note(&mut self.calls, NotedCall::SyncFile(path))?;
        self.shelf.sync_file(&mut writer.writer)
    }

    fn sync_dir(&mut self, path: &str) -> Result<(), StoreFault> {
        note(&mut self.calls, NotedCall::SyncDir(text(self.alloc, path)?))?;
        self.shelf.sync_dir(path)
    }

    fn create_dir(&mut self, path: &str) -> Result<(), StoreFault> {
        let path_of = text(self.alloc, path)?;
        note(&mut self.calls, NotedCall::CreateDir(path_of))?;
        self.shelf.create_dir(path)
    }

    fn rename(&mut self, from: &str, to: &str) -> Result<(), StoreFault> {
        let from_of = text(self.alloc, from)?;
        let to_of = text(self.alloc, to)?;
        note(&mut self.calls, NotedCall::Rename(from_of, to_of))?;
        self.shelf.rename(from, to)
    }

    fn remove_file(&mut self, path: &str) -> Result<(), StoreFault> {
        note(&mut self.calls, NotedCall::Remove(text(self.alloc, path)?))?;
        self.shelf.remove_file(path)
    }
}

impl PartStore for Noted {
    type Reader = ShelfReader;

    ghost has_read = { λ _ _ _. ⊤ };

    fn open(&self, path: &str) -> Result<ShelfReader, StoreFault> {
        self.shelf.open(path)
    }

    fn expected_length(&self, reader: &ShelfReader) -> u64 {
        self.shelf.expected_length(reader)
    }

    fn read_next(
        &self,
        reader: &mut ShelfReader,
        most: u64,
        bytes: &mut Vec<u8>,
    ) -> Result<(), StoreFault> {
        self.shelf.read_next(reader, most, bytes)
    }
}

// Ends the test unless so many calls of a case change the store, and the last of them syncs the directory.
fn assert_noted<R: Abort + Threads + Wait + Sync + AllocGlobal>(
    rt: &R,
    case: &Case,
    wanted: usize,
) -> Result<(), StoreFault> {
    let shelf = shelf_of(rt.alloc(), case)?;
    let last = NotedCall::SyncDir(text(rt.alloc(), case.dir)?);
    let mut noted = Noted {
        alloc: rt.alloc(),
        shelf,
        calls: Vec::new(rt.alloc()),
    };
    carried_out(rt, &mut noted, &NoGate, case.asked);
    same(rt, case.dir, noted.calls.len(), wanted);
    same(rt, case.dir, noted.calls.last(), Some(&last));
    Ok(())
}

// How many calls of each command change the store.
#[test]
fn noted_calls(rt: HostRuntime) -> Result<(), StoreFault> {
    assert_noted(&rt, &APPEND, 7)?;
    assert_noted(&rt, &CUT, 18)?;
    assert_noted(&rt, &CHECKPOINT, 7)
}
