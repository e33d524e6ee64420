//! What `live` is given by its tests: stores that are lent to it, inputs that come a few bytes a read, and an output that counts blocks.

ghost use Rattle.std.specs.Prelude.{⊤};

use crate::checks::UNSAID;
use crate::runs::ANY;
use answers::{Answer, LiveRequest, Output, PrintFault};
use head_replay::NoGate;
use live_command::{RowInput, carry_out_live};
use std::alloc::{AllocError, Global};
use std::io::{self, Read};
use std::random::RandomSource;
use std::sync::atomic::{AtomicU64, Ordering};
use std::sync::{Mutex, MutexGuard, Wait};
use std::thread::{self, Threads};
use std::time::{Clock, Duration};
use store::{PartStore, Store, StoreFault};

/// A store that is lent to a command, which drops what it is given. A call fails where another one is being made.
#[derive(Drop)]
pub struct Lent<'a, S: Store + Drop> {
    store: &'a Mutex<S>,
    // the file that another run writes to
    held: &'static str,
}

fn lock<S: Store + Drop>(store: &Mutex<S>) -> Result<MutexGuard<'_, S>, StoreFault> {
    store.try_lock().ok_or(UNSAID)
}

impl<'a, S: Store + Drop> Lent<'a, S> {
    /// Lends a store of which another run writes to no file.
    pub fn new(store: &'a Mutex<S>) -> Lent<'a, S> {
        Lent { store, held: "" }
    }

    /// Lends a store of which another run writes to this file.
    pub fn in_use(store: &'a Mutex<S>, held: &'static str) -> Lent<'a, S> {
        Lent { store, held }
    }
}

impl<S: Store + Drop> Store for Lent<'_, S> {
    type Writer = S::Writer;

    // what it holds is behind a lock
    ghost did = { λ _ _ _. ⊤ };

    ghost is_of = { λ _ _. ⊤ };

    ghost holds = { λ _ _ _. ⊤ };

    ghost did_nothing = { λ _. tt };

    ghost did_both = { λ _ _ _ _ _ _ _. tt };

    fn read_dir(&self, path: &str) -> Result<Vec<String>, StoreFault> {
        lock(self.store)?.read_dir(path)
    }

    fn read(&self, path: &str) -> Result<Vec<u8>, StoreFault> {
        lock(self.store)?.read(path)
    }

    fn is_held(&self, path: &str) -> bool {
        self.held == path
    }

    fn create_new(&mut self, path: &str) -> Result<S::Writer, StoreFault> {
        lock(self.store)?.create_new(path)
    }

    fn write(&mut self, writer: &mut S::Writer, bytes: &[u8]) -> Result<(), StoreFault> {
        lock(self.store)?.write(writer, bytes)
    }

    fn sync_file(&mut self, writer: &mut S::Writer) -> Result<(), StoreFault> {
        lock(self.store)?.sync_file(writer)
    }

    fn sync_dir(&mut self, path: &str) -> Result<(), StoreFault> {
        lock(self.store)?.sync_dir(path)
    }

    fn create_dir(&mut self, path: &str) -> Result<(), StoreFault> {
        lock(self.store)?.create_dir(path)
    }

    fn rename(&mut self, from: &str, to: &str) -> Result<(), StoreFault> {
        lock(self.store)?.rename(from, to)
    }

    fn remove_file(&mut self, path: &str) -> Result<(), StoreFault> {
        lock(self.store)?.remove_file(path)
    }
}

impl<S: PartStore + Drop> PartStore for Lent<'_, S> {
    type Reader = S::Reader;

    ghost has_read = { λ _ _ _. ⊤ };

    fn open(&self, path: &str) -> Result<S::Reader, StoreFault> {
        lock(self.store)?.open(path)
    }

    fn expected_length(&self, reader: &S::Reader) -> u64 {
        match lock(self.store) {
            Ok(store) => store.expected_length(reader),
            Err(_) => 0,
        }
    }

    fn read_next(
        &self,
        reader: &mut S::Reader,
        most: u64,
        bytes: &mut Vec<u8>,
    ) -> Result<(), StoreFault> {
        lock(self.store)?.read_next(reader, most, bytes)
    }
}

/// An input that gives at most so many bytes a read.
#[derive(Drop)]
pub struct Few<'a> {
    rest: &'a [u8],
    most: usize,
}

impl<'a> Few<'a> {
    pub fn new(rest: &'a [u8], most: usize) -> Few<'a> {
        Few { rest, most }
    }
}

impl Read for Few<'_> {
    fn read(&mut self, buf: &mut [u8]) -> io::Result<usize> {
        let most = buf.len().min(self.most);
        self.rest.read(&mut buf[..most])
    }
}

/// An input whose second part comes once so many blocks are printed, or after some ten seconds.
#[derive(Drop)]
pub struct Late<'a, C> {
    clock: &'a C,
    rest: &'a [u8],
    later: &'a [u8],
    printed: &'a AtomicU64,
    blocks: u64,
}

impl<'a, C: Clock> Late<'a, C> {
    pub fn new(
        clock: &'a C,
        rest: &'a [u8],
        later: &'a [u8],
        printed: &'a AtomicU64,
        blocks: u64,
    ) -> Late<'a, C> {
        Late {
            clock,
            rest,
            later,
            printed,
            blocks,
        }
    }

    // Waits for the blocks.
    fn wait(&self) {
        for _ in 0..10_000u32 {
            if self.printed.load(Ordering::SeqCst) >= self.blocks {
                break;
            }
            thread::sleep(self.clock, Duration::from_millis(1));
        }
        // so that it is looked for more
        thread::sleep(self.clock, Duration::from_millis(100));
    }
}

impl<C: Clock> Read for Late<'_, C> {
    fn read(&mut self, buf: &mut [u8]) -> io::Result<usize> {
        if self.rest.is_empty() {
            self.wait();
            self.rest = self.later;
            self.later = &[];
        }
        self.rest.read(buf)
    }
}

/// An output that keeps what is printed, and counts the blocks.
#[derive(Drop)]
pub struct Counted<'a> {
    pub text: String,
    blocks: &'a AtomicU64,
}

impl<'a> Counted<'a> {
    pub fn new(alloc: Global, blocks: &'a AtomicU64) -> Counted<'a> {
        Counted {
            text: String::new(alloc),
            blocks,
        }
    }
}

impl Output for Counted<'_> {
    ghost use Rattle.std.specs.Prelude.{◌≡◌, ◌++◌, string_bytes};

    ghost printed = { λ first text last. string_bytes last.text ≡ string_bytes first.text ++ text };

    fn print(&mut self, text: &str) -> Result<(), PrintFault> {
        self.text.push_str(text)?;
        if text.starts_with("block ") {
            self.blocks.fetch_add(1, Ordering::SeqCst);
        }
        Ok(())
    }
}

/// The log in `log`, with blocks in `out`, synced after each batch, whose hours are cut at once.
pub const LIVE: LiveRequest<'static> = LiveRequest {
    dir: "log",
    out: "out",
    rows: "",
    floats: false,
    sync: 0,
    after: 0,
    options: ANY,
};

/// Returns these sources as inputs, one for each.
pub fn inputs<I: Read + Drop>(
    alloc: Global,
    sources: Vec<I>,
) -> Result<Vec<RowInput<I>>, AllocError> {
    let mut inputs = Vec::new(alloc);
    for source in sources {
        inputs.push(RowInput {
            name: String::from_str(alloc, "rows")?,
            source,
        })?;
    }
    Ok(inputs)
}

/// Carries out `live` over a log in one store, with its blocks in another.
pub fn lived<R, S, O, I>(
    rt: &R,
    (log, blocks): (Lent<'_, S>, &Mutex<S>),
    out: O,
    inputs: Vec<RowInput<I>>,
    request: LiveRequest<'_>,
) -> (Answer, O)
where
    R: Clock + RandomSource + Threads + Wait + Sync + AllocGlobal,
    S: PartStore + Drop + Send,
    S::Reader: Send,
    S::Writer: Send,
    O: Output + Drop + Send,
    I: Read + Drop + Send,
{
    let mut blocks = Lent::new(blocks);
    let alloc = rt.alloc();
    carry_out_live(rt, alloc, log, &mut blocks, &NoGate, out, inputs, request)
}
