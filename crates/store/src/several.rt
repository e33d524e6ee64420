//! Reading several files side by side.

ghost use Rattle.std.specs.Prelude.{◌≡◌, ◌<◌, ℕ, List, Result, Ok, IfErr, IfOk, Vec, length, map, string_bytes};
ghost use Rattle.std.specs.Global.{Global as GlobalAllocator};
ghost use Rattle.std.specs.List.{AllZip};
ghost use Rattle.store.specs.declared.store.StoreFault.{StoreFault as Refusal};
ghost use Rattle.store.specs.Several.{Gave, IsRefused, StopsAt};

use crate::reason::Reason;
use crate::store::StoreFault;
use std::alloc::Global;
use std::io::ErrorKind;
use std::thread;
use std::thread::Threads;

/// Reads files, one at a time.
pub trait ReadFile {
    /// For this path it gave these bytes, or this fault.
    ghost gave: { Self → List ℕ → Result (Vec ℕ GlobalAllocator) Refusal → Type 0 };

    /// Reads the file at a path.
    fn read_file(&self, path: &str) -> Result<Vec<u8>, StoreFault>
        ensures { gave self.now path.now result };
}

// Reads the file of each path into its place, one after another.
fn read_in_turn<F: ReadFile>(
    reader: &F,
    paths: &[String],
    files: &mut [Result<Vec<u8>, StoreFault>],
)
    requires { length files.old ≡ length paths.now }
    ensures { AllZip (λ path file. F.gave reader.now (string_bytes path) file) paths.now files.new }
{
    for place in 0..paths.len() {
        files[place] = reader.read_file(&paths[place]);
    }
}

// Reads the files of the paths `first` in so many threads but one, with the reader `here` in this thread, and meanwhile those of `rest` in
// another thread, with `there`.
#[cycle(reading)]
fn read_both<R: Threads, H: ReadFile, T: ReadFile + Sync>(
    rt: &R,
    here: &H,
    there: &T,
    readers: usize,
    first: &[String],
    front: &mut [Result<Vec<u8>, StoreFault>],
    rest: &[String],
    back: &mut [Result<Vec<u8>, StoreFault>],
)
    requires several { 1 < readers }
    requires front { length front.old ≡ length first.now }
    requires back { length back.old ≡ length rest.now }
    ensures front { AllZip (λ path file. Gave (H.gave here.now) (T.gave there.now) (string_bytes path) file) first.now front.new }
    ensures back { AllZip (λ path file. T.gave there.now (string_bytes path) file) rest.now back.new }
{
    let mut among = ||
        requires { (1 < readers) × (length front.now ≡ length first.now) }
        ensures { AllZip (λ path file. Gave (H.gave here.entry.now) (T.gave there.entry.now) (string_bytes path) file) first.entry.now front.exit.now }
    { read_among(rt, here, there, readers - 1, first, front) };
    thread::join_mut(rt, &mut || read_in_turn(there, rest, back), &mut among);
}

// Reads the file of each path into its place, in so many threads, this one among them. Each reads about as many as the others. This thread
// reads the first of them, with the reader `here`, and the others with `there`.
#[cycle(reading)]
fn read_among<R: Threads, H: ReadFile, T: ReadFile + Sync>(
    rt: &R,
    here: &H,
    there: &T,
    readers: usize,
    paths: &[String],
    files: &mut [Result<Vec<u8>, StoreFault>],
)
    requires { length files.old ≡ length paths.now }
    ensures { AllZip (λ path file. Gave (H.gave here.now) (T.gave there.now) (string_bytes path) file) paths.now files.new }
{
    if readers < 2 {
        read_in_turn(here, paths, files);
        return;
    }
    let share = paths.len() - paths.len() / readers;
    let (first, rest) = paths.split_at(share);
    let (front, back) = files.split_at_mut(share);
    read_both(rt, here, there, readers, first, front, rest, back);
}

// What is in the place of a file that was not read yet.
const UNREAD: StoreFault = StoreFault::Refused(Reason::Other(ErrorKind::Other));

// Returns a place for each path. What is in it says that no file was read yet.
fn places_for(alloc: Global, paths: &[String]) -> Result<Vec<Result<Vec<u8>, StoreFault>>, usize>
    ensures places { IfOk result (λ files. length files.items ≡ length paths.now) }
    ensures place { IfErr result (λ place. place < length paths.now) }
{
    let mut files = Vec::new(alloc);
    for place in 0..paths.len() {
        if files.push(Err(UNREAD)).is_err() {
            return Err(place);
        }
    }
    Ok(files)
}

// Collects the files that were read. Returns the place of the first that was not, and why.
fn all_read(
    alloc: Global,
    files: Vec<Result<Vec<u8>, StoreFault>>,
) -> Result<Vec<Vec<u8>>, (usize, StoreFault)>
    ensures files { IfOk result (λ read. files.items ≡ map Ok read.items) }
    ensures place { IfErr result (λ refused. StopsAt files.items refused.0 refused.1) }
{
    let mut read = Vec::new(alloc);
    for file in files {
        let place = read.len();
        let bytes = match file {
            Ok(bytes) => bytes,
            Err(fault) => return Err((place, fault)),
        };
        if read.push(bytes).is_err() {
            return Err((place, StoreFault::OutOfMemory));
        }
    }
    Ok(read)
}

/// Reads the files at these paths, in so many threads, this one among them: its files with the reader `here`, and the others with `there`.
/// Returns the place of the first that cannot be read, and why.
pub fn read_several<R: Threads, H: ReadFile, T: ReadFile + Sync>(
    rt: &R,
    alloc: Global,
    here: &H,
    there: &T,
    readers: usize,
    paths: &[String],
) -> Result<Vec<Vec<u8>>, (usize, StoreFault)>
    ensures files { IfOk result (λ files. AllZip (λ path bytes. Gave (H.gave here.now) (T.gave there.now) (string_bytes path) (Ok bytes)) paths.now files.items) }
    ensures refused { IfErr result (λ refused. IsRefused (Gave (H.gave here.now) (T.gave there.now)) paths.now refused.0 refused.1) }
{
    let mut files = match places_for(alloc, paths) {
        Ok(files) => files,
        Err(place) => return Err((place, StoreFault::OutOfMemory)),
    };
    read_among(rt, here, there, readers, paths, &mut files);
    all_read(alloc, files)
}
