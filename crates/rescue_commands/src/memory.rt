//! How much memory passes over a log may take.

use crate::fault::pass_over;
use answers::{BlocksRequest, Fault, LogForm};
use log_directory::{length_in, read_in};
use std::alloc::Global;
use std::str;
use store::{PartStore, Store};

/// About how many bytes the text of a compressed file has for each byte of the file, at most.
const UNPACKED: u64 = 3;

/// How many bytes a server's segment has at most, unless it was told otherwise.
const SEGMENT_BYTES: u64 = 128 << 20;

/// How many bytes of memory a byte of a log takes at most where all its samples are kept. Only labels can take more.
const KEPT: u64 = 10;

// Returns how many bytes are free by the text of Linux's `/proc/meminfo`.
fn available(text: &[u8]) -> Option<u64> {
    let mut words = str::from_utf8(text).ok()?.split_whitespace();
    while let Some(word) = words.next() {
        if word == "MemAvailable:" {
            let kib = words.next()?.parse::<u64>().ok()?;
            return Some(kib.saturating_mul(1024));
        }
    }
    None
}

// Returns how many bytes of memory are free, if the system says so.
fn free_memory<S: Store>(alloc: Global, store: &S) -> Result<Option<u64>, Fault> {
    match read_in(alloc, store, "/proc", "meminfo") {
        Ok(text) => Ok(available(text.as_slice())),
        Err(fault) => {
            pass_over(fault)?;
            Ok(None)
        }
    }
}

// Returns how many bytes of memory passes may take: as many as the request says, or else half of those that are free. `None` if that is not
// known.
fn memory_for<S: Store>(
    alloc: Global,
    store: &S,
    request: &BlocksRequest<'_>,
) -> Result<Option<u64>, Fault> {
    if request.memory.is_some() {
        return Ok(request.memory);
    }
    Ok(free_memory(alloc, store)?.map(|free| free / 2))
}

// Returns how many bytes the files of a log have. Where they cannot be opened, the replay reports it.
fn length_of<S: PartStore>(alloc: Global, store: &S, dir: &str) -> Result<u64, Fault> {
    match length_in(alloc, store, dir) {
        Ok(length) => Ok(length),
        Err(fault) => {
            pass_over(fault)?;
            Ok(u64::MAX)
        }
    }
}

// Returns about how many bytes a log has without compression, if its files have this length.
fn plain_length(form: LogForm, length: u64) -> u64 {
    match form {
        LogForm::Plain => length,
        LogForm::Unpacked | LogForm::PastDamage => length.saturating_mul(UNPACKED),
    }
}

// Returns about how many bytes of memory a file takes while it is unpacked, and its text, if all files have this length.
fn held(form: LogForm, length: u64) -> u64 {
    match form {
        LogForm::Plain => 0,
        LogForm::Unpacked | LogForm::PastDamage => {
            length.min(SEGMENT_BYTES).saturating_mul(1 + UNPACKED)
        }
    }
}

/// Returns how many bytes of memory a pass may take for series, samples and blocks, if one over the whole log might take more.
pub(crate) fn budget_for<S: PartStore>(
    alloc: Global,
    store: &S,
    request: &BlocksRequest<'_>,
) -> Result<Option<u64>, Fault> {
    let Some(memory) = memory_for(alloc, store, request)? else {
        return Ok(None);
    };
    let length = length_of(alloc, store, request.dir)?;
    if plain_length(request.form, length).saturating_mul(KEPT) <= memory {
        return Ok(None);
    }
    Ok(Some(memory.saturating_sub(held(request.form, length))))
}
