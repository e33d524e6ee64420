//! Bytes that are written as they come, to real files and to a writer that takes few at a time.

use crate::checks::{UNSAID, same};
use crate::shelf::Shelf;
use crate::short_writes::Few;
use hw_bytes::Items;
use std::alloc::{AllocError, Global};
use std::test::Fail;
use std::{env, fs, process};
use store::{Disk, Pieces, Store, StoreFault, gather, write_each};

// Pieces that are there already.
#[derive(Drop)]
struct Listed<'a> {
    left: &'a [Items<u8>],
}

impl Pieces for Listed<'_> {
    ghost use Rattle.std.specs.Prelude.{length};
    ghost use Rattle.std.specs.List.{flat_map};

    ghost text = { λ p. flat_map (λ b. b) p.left.now };

    ghost count = { λ p. length p.left.now };

    fn len(&self) -> usize {
        self.left.len()
    }

    fn next_piece(&mut self, bytes: &mut Vec<u8>) -> Result<(), AllocError> {
        if let Some((first, later)) = self.left.split_first() {
            bytes.extend_from_slice(first.as_slice())?;
            self.left = later;
        }
        Ok(())
    }
}

// So many bytes of each length, the first ones 0, the next ones 1 and so on.
fn pieces_of(alloc: Global, lengths: &[usize]) -> Result<Vec<Items<u8>>, AllocError> {
    let mut pieces = Vec::new(alloc);
    for (byte, length) in (0u8..).zip(lengths) {
        pieces.push(Items::from_vec(vec![in alloc; byte; *length]?))?;
    }
    Ok(pieces)
}

// All these bytes, one after another.
fn joined(alloc: Global, pieces: &[Items<u8>]) -> Result<Vec<u8>, AllocError> {
    let mut bytes = Vec::new(alloc);
    for piece in pieces {
        bytes.extend_from_slice(piece.as_slice())?;
    }
    Ok(bytes)
}

// A megabyte is written at once, or one piece where that is longer.
const LENGTHS: &[&[usize]] = &[
    &[],
    &[0],
    &[0, 0, 3],
    &[1_048_575, 1, 0, 1],
    &[1_048_576],
    &[1_048_577, 5],
    &[700_000, 700_000, 700_000, 1_400_001, 17],
    &[3_500_000, 0, 1],
];

// Writes the pieces to a new file between two words, and gives what it holds.
fn written<S: Store>(
    alloc: Global,
    store: &mut S,
    path: &str,
    pieces: &[Items<u8>],
) -> Result<Vec<u8>, StoreFault> {
    let mut writer = store.create_new(path)?;
    store.write(&mut writer, b"one ")?;
    store.write_pieces(alloc, &mut writer, &mut Listed { left: pieces })?;
    store.write(&mut writer, b" two")?;
    store.sync_file(&mut writer)?;
    store.read(path)
}

// The bytes between the two words.
fn between(bytes: &[u8]) -> Option<&[u8]> {
    bytes.strip_prefix(b"one ")?.strip_suffix(b" two")
}

#[test]
fn pieces_in_real_files(rt: HostRuntime) -> Result<(), Fail> {
    let alloc = rt.alloc();
    let id = process::id(rt.process());
    let name = format!(in alloc; "prom_head.{id}.pieces")?;
    let path = env::temp_dir(&rt)?.join(alloc, name)?.into_string();
    for lengths in LENGTHS {
        let pieces = pieces_of(alloc, lengths)?;
        let _ = fs::remove_file(&rt, &path);
        let found = written(alloc, &mut Disk::new(&rt), &path, &pieces);
        let wanted = joined(alloc, &pieces)?;
        assert!(rt;
            found.is_ok_and(|found| between(&found) == Some(wanted.as_slice())),
            "{lengths:?}"
        );
    }
    fs::remove_file(&rt, &path)?;
    Ok(())
}

#[test]
fn pieces_in_a_store_in_memory(rt: HostRuntime) -> Result<(), StoreFault> {
    let alloc = rt.alloc();
    for lengths in LENGTHS {
        let pieces = pieces_of(alloc, lengths)?;
        let found = written(alloc, &mut Shelf::new(alloc)?, "new", &pieces)?;
        let wanted = joined(alloc, &pieces)?;
        assert!(rt; between(&found) == Some(wanted.as_slice()), "{lengths:?}");
        let gathered = gather(alloc, &mut Listed { left: &pieces })?;
        assert!(rt; gathered == wanted, "{lengths:?}");
    }
    Ok(())
}

// A writer that takes few bytes a call gets all of them. Where it is full, it keeps the first ones.
#[test]
fn pieces_for_a_short_writer(rt: HostRuntime) -> Result<(), StoreFault> {
    let alloc = rt.alloc();
    for (most, room) in [(1, 100), (3, 100), (100, 100), (3, 0), (3, 4), (100, 5)] {
        let pieces = pieces_of(alloc, &[2, 0, 5])?;
        let mut writer = Few::new(alloc, most, room);
        let told = write_each(alloc, &mut writer, &mut Listed { left: &pieces });
        let wanted = if room < 7 { Err(UNSAID) } else { Ok(()) };
        same(&rt, (most, room), told, wanted);
        let kept = &b"\0\0\x02\x02\x02\x02\x02"[..room.min(7)];
        same(&rt, (most, room), writer.taken.as_slice(), kept);
    }
    Ok(())
}
