//! Tombstones, meta.json, names, checksums, and the texts of faults.

use crate::blocks::META;
use crate::cases::{Case, check, of_hex, shown};
use block_files::{
    BadUlid, Meta, Tombstone, Ulid, read_tombstones, ulid_of, write_meta, write_tombstones,
};
use block_index::ReadFault;
use block_read::BlockFault;
use head_column::Run;
use hw_bytes::{WriteFault, four_bytes_of, is_summed, put_sum};
use std::alloc::{AllocError, Global};

// A tombstone: the series, and the first and the last time.
type Entry = (u64, i64, i64);

fn written(alloc: Global, entries: &[Entry]) -> Result<Vec<u8>, AllocError> {
    let mut tombstones = Vec::new(alloc);
    for &(series, min_time, max_time) in entries {
        let run = Run { min_time, max_time };
        tombstones.push(Tombstone { series, run })?;
    }
    write_tombstones(alloc, &tombstones)
}

// Tombstones in hexadecimal digits, that are read; and ones that are written: whether the bytes are these.
enum Tombstones {
    Read(&'static str),
    Written(&'static [Entry], &'static str),
}

impl Case for Tombstones {
    fn text(&self, alloc: Global) -> Result<String, AllocError> {
        match self {
            Tombstones::Read(digits) => {
                shown(alloc, read_tombstones(alloc, &of_hex(alloc, digits)?))
            }
            Tombstones::Written(entries, digits) => {
                shown(alloc, written(alloc, entries)? == of_hex(alloc, digits)?)
            }
        }
    }
}

const NONE: &str = "0130BA30 01  00000000";

// The times 0 to 9 of the series 2, all times of the series 3, and the time -1 of the greatest series.
const THREE: &str = "0130BA30 01 02 00 12 \
    03 FFFFFFFFFFFFFFFFFF01 FEFFFFFFFFFFFFFFFF01 \
    FFFFFFFFFFFFFFFFFF01 01 01  4ACDF979";

const TOMBSTONES: &[(Tombstones, &str)] = &[
    (Tombstones::Written(&[], NONE), "true"),
    (Tombstones::Read(NONE), "Ok([])"),
    (
        Tombstones::Written(
            &[(2, 0, 9), (3, i64::MIN, i64::MAX), (u64::MAX, -1, -1)],
            THREE,
        ),
        "true",
    ),
    (
        Tombstones::Read(THREE),
        "Ok([Tombstone { series: 2, run: Run { min_time: 0, max_time: 9 } }, \
        Tombstone { series: 3, run: Run { min_time: -9223372036854775808, max_time: 9223372036854775807 } }, \
        Tombstone { series: 18446744073709551615, run: Run { min_time: -1, max_time: -1 } }])",
    ),
    // another magic, version and checksum
    (
        Tombstones::Read("0130BA31 01 02 00 12  DE6E46EF"),
        "Err(BadTombstones)",
    ),
    (
        Tombstones::Read("0130BA30 02 02 00 12  DE6E46EF"),
        "Err(BadTombstones)",
    ),
    (
        Tombstones::Read("0130BA30 01 02 00 12  DE6E46EE"),
        "Err(BadTombstones)",
    ),
    // an entry that ends too soon, a longer spelling of the series, and less than a checksum
    (
        Tombstones::Read("0130BA30 01 02 00  D624473C"),
        "Err(BadTombstones)",
    ),
    (
        Tombstones::Read("0130BA30 01 8200 00 12  54C516E1"),
        "Err(BadTombstones)",
    ),
    (Tombstones::Read("0130BA30 01 000000"), "Err(BadTombstones)"),
];

#[test]
fn entries_of_tombstones(rt: HostRuntime) {
    check(&rt, TOMBSTONES);
}

// A name of a block: its text again, where its bytes are those of the text, or why it is none.
struct Name(&'static str);

impl Case for Name {
    fn text(&self, alloc: Global) -> Result<String, AllocError> {
        match Ulid::new(self.0) {
            Ok(ulid) if ulid.as_bytes() == self.0.as_bytes() => ulid.to_string(alloc),
            found => shown(alloc, found),
        }
    }
}

const NAMES: &[(Name, &str)] = &[
    (
        Name("01ARZ3NDEKTSV4RRFFQ69G5FAV"),
        "01ARZ3NDEKTSV4RRFFQ69G5FAV",
    ),
    (
        Name("7ZZZZZZZZZZZZZZZZZZZZZZZZZ"),
        "7ZZZZZZZZZZZZZZZZZZZZZZZZZ",
    ),
    // 25 digits, 27, and a first one past 7
    (Name("01ARZ3NDEKTSV4RRFFQ69G5FA"), "Err(BadUlid)"),
    (Name("01ARZ3NDEKTSV4RRFFQ69G5FAV0"), "Err(BadUlid)"),
    (Name("81ARZ3NDEKTSV4RRFFQ69G5FAV"), "Err(BadUlid)"),
    // I, L, O and U, and a small letter, are no digits
    (Name("01ARZ3NDEKTSV4RRFFQ69G5FAI"), "Err(BadUlid)"),
    (Name("01ARZ3NDEKTSV4RRFFQ69G5FAL"), "Err(BadUlid)"),
    (Name("01ARZ3NDEKTSV4RRFFQ69G5FAO"), "Err(BadUlid)"),
    (Name("01ARZ3NDEKTSV4RRFFQ69G5FAU"), "Err(BadUlid)"),
    (Name("01ARZ3NDEKTSV4RRFFQ69G5FAv"), "Err(BadUlid)"),
    (Name(""), "Err(BadUlid)"),
];

#[test]
fn names_of_blocks(rt: HostRuntime) {
    check(&rt, NAMES);
}

// The name, the times and the counts of a block: what is written of it, and the name in that.
struct Described {
    ulid: &'static str,
    times: (i64, i64),
    counts: (u64, u64, u64),
    meta: &'static [u8],
}

fn meta_of(described: &Described) -> Result<Meta, BadUlid> {
    let ulid = Ulid::new(described.ulid)?;
    let (min_time, max_time) = described.times;
    let (samples, series, chunks) = described.counts;
    Ok(Meta {
        ulid,
        min_time,
        max_time,
        samples,
        series,
        chunks,
    })
}

impl Case for Described {
    fn text(&self, alloc: Global) -> Result<String, AllocError> {
        let meta = match meta_of(self) {
            Ok(meta) => meta,
            Err(fault) => return shown(alloc, fault),
        };
        let found = write_meta(alloc, &meta)?;
        let is_same = found.as_slice() == self.meta;
        let is_named = ulid_of(&found) == Some(meta.ulid);
        shown(alloc, (is_same, is_named))
    }
}

const METAS: &[(Described, &str)] = &[
    (
        Described {
            ulid: "01ARZ3NDEKTSV4RRFFQ69G5FAV",
            times: (0, 3_600_000),
            counts: (3, 2, 2),
            meta: META,
        },
        "(true, true)",
    ),
    (
        Described {
            ulid: "7ZZZZZZZZZZZZZZZZZZZZZZZZZ",
            times: (-3_600_000, 0),
            counts: (u64::MAX, 0, 10),
            meta: b"{\n\
                \t\"ulid\": \"7ZZZZZZZZZZZZZZZZZZZZZZZZZ\",\n\
                \t\"minTime\": -3600000,\n\
                \t\"maxTime\": 0,\n\
                \t\"stats\": {\n\
                \t\t\"numSamples\": 18446744073709551615,\n\
                \t\t\"numSeries\": 0,\n\
                \t\t\"numChunks\": 10\n\
                \t},\n\
                \t\"compaction\": {\n\
                \t\t\"level\": 1,\n\
                \t\t\"sources\": [\n\
                \t\t\t\"7ZZZZZZZZZZZZZZZZZZZZZZZZZ\"\n\
                \t\t]\n\
                \t},\n\
                \t\"version\": 1\n\
                }\n",
        },
        "(true, true)",
    ),
];

#[test]
fn descriptions_of_blocks(rt: HostRuntime) {
    check(&rt, METAS);
}

// A text whose checksum is put after a byte; bytes, and how many of them are summed; and a number for four bytes.
enum Number {
    Put(&'static [u8]),
    Summed(&'static [u8], usize),
    Four(usize),
}

impl Case for Number {
    fn text(&self, alloc: Global) -> Result<String, AllocError> {
        match self {
            Number::Put(text) => {
                let mut bytes = Vec::from_slice(alloc, b"\x07")?;
                put_sum(&mut bytes, text)?;
                shown(alloc, bytes)
            }
            Number::Summed(bytes, len) => shown(alloc, is_summed(bytes, bytes.len().min(*len))),
            Number::Four(number) => shown(alloc, four_bytes_of(*number)),
        }
    }
}

const NUMBERS: &[(Number, &str)] = &[
    (Number::Put(b""), "[7, 0, 0, 0, 0]"),
    (Number::Put(b"123456789"), "[7, 227, 6, 146, 131]"),
    (Number::Summed(b"123456789\xE3\x06\x92\x83", 9), "true"),
    (Number::Summed(b"123456789\xE3\x06\x92\x83rest", 9), "true"),
    (Number::Summed(b"123456789\xE3\x06\x92\x83", 8), "false"),
    (Number::Summed(b"123456789\xE3\x06\x92\x82", 9), "false"),
    (Number::Summed(b"123456789\xE3\x06\x92", 9), "false"),
    (Number::Summed(b"\0\0\0\0", 0), "true"),
    (Number::Four(4_294_967_295), "Ok(4294967295)"),
    (Number::Four(4_294_967_296), "Err(TooLarge)"),
];

#[test]
fn sums_and_four_bytes(rt: HostRuntime) {
    check(&rt, NUMBERS);
}

enum Fault {
    Block(BlockFault),
    Write(WriteFault),
    Ulid(BadUlid),
}

impl Case for Fault {
    fn text(&self, alloc: Global) -> Result<String, AllocError> {
        match self {
            Fault::Block(fault) => fault.to_string(alloc),
            Fault::Write(fault) => fault.to_string(alloc),
            Fault::Ulid(fault) => fault.to_string(alloc),
        }
    }
}

const FAULTS: &[(Fault, &str)] = &[
    (
        Fault::Block(BlockFault::Index(ReadFault::BadMagic)),
        "bad index BadMagic",
    ),
    (
        Fault::Block(BlockFault::Index(ReadFault::BadVersion)),
        "bad index BadVersion",
    ),
    (
        Fault::Block(BlockFault::Index(ReadFault::BadToc)),
        "bad index BadToc",
    ),
    (
        Fault::Block(BlockFault::Index(ReadFault::BadSum)),
        "bad index BadSum",
    ),
    (
        Fault::Block(BlockFault::Index(ReadFault::BadSection)),
        "bad index BadSection",
    ),
    (
        Fault::Block(BlockFault::Index(ReadFault::NotCanonical)),
        "bad index NotCanonical",
    ),
    (Fault::Block(BlockFault::BadChunks), "bad chunks"),
    (Fault::Block(BlockFault::BadTombstones), "bad tombstones"),
    (Fault::Block(BlockFault::BadMeta), "bad meta"),
    (Fault::Block(BlockFault::Memory), "out of memory"),
    (Fault::Write(WriteFault::TooLarge), "too large"),
    (Fault::Write(WriteFault::Memory), "out of memory"),
    (Fault::Ulid(BadUlid), "ulid must be 26 Crockford characters"),
];

#[test]
fn fault_texts(rt: HostRuntime) {
    check(&rt, FAULTS);
}
