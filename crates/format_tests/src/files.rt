//! Chunk files.

ghost use Rattle.std.specs.Prelude.{◌↔◌, ◌≤◌, IsTrue, length};
ghost use Rattle.std.specs.List.{All};
ghost use Rattle.head_column.specs.declared.chunk.Chunk.{Chunk as ChunkOfRow};
ghost use Rattle.block_files.specs.Files.{longest_chunk};
ghost use Rattle.block_files.specs.declared.places.ChunkSpan.{ChunkSpan as SpanOfRow};

use crate::cases::{Case, check, shown};
use block_files::{
    ChunkFiles, ChunkSpan, Encoding, FileSpan, PlacedChunks, chunk_at, place_spans, put_chunk,
    put_file_head, spans_of, write_chunks,
};
use head_column::{Chunk, Sample, decode_chunk};
use hw_bytes::{Items, WriteFault, crc32c};
use std::alloc::{AllocError, Global};

// The data of 120 samples, a second apart from the time 0 on, with the values 256 k, 256 k + 1 and so on.
fn data_of(alloc: Global, k: u8) -> Result<Vec<u8>, AllocError> {
    let mut data = Vec::new(alloc);
    data.extend_from_slice(b"\0\x78")?;
    for i in 0..120u8 {
        let time: &[u8] = if i == 0 { b"\0" } else { b"\xE8\x07" };
        data.extend_from_slice(time)?;
        data.extend_from_slice(&[0, 0, 0, 0, 0, 0, k, i])?;
    }
    Ok(data)
}

fn chunk_of(alloc: Global, k: u8) -> Result<Chunk, AllocError> {
    Ok(Chunk {
        min_time: 0,
        max_time: 119_000,
        count: 120,
        text: Items::from_vec(data_of(alloc, k)?),
    })
}

// The numbers of a row's chunks: from the first one up to, and without, the second one.
type Row = (u8, u8);

fn row_of(alloc: Global, row: Row) -> Result<Items<Chunk>, AllocError> {
    let mut chunks = Vec::new(alloc);
    for k in row.0..row.1 {
        chunks.push(chunk_of(alloc, k)?)?;
    }
    Ok(Items::from_vec(chunks))
}

fn rows_of(alloc: Global, rows: &[Row]) -> Result<Vec<Items<Chunk>>, AllocError> {
    let mut made = Vec::new(alloc);
    for row in rows {
        made.push(row_of(alloc, *row)?)?;
    }
    Ok(made)
}

// Whether the data of these chunks are no longer than those of 120 samples can be.
fn is_short(row: &[Chunk]) -> bool
    ensures { IsTrue result ↔ All (λ (c : ChunkOfRow). length c.text ≤ longest_chunk) row.now }
{
    row.iter().all(|chunk| chunk.text.len() <= 2180)
}

fn are_short(rows: &[Items<Chunk>]) -> bool
    ensures { IsTrue result ↔ All (λ row. All (λ (c : ChunkOfRow). length c.text ≤ longest_chunk) row) rows.now }
{
    rows.iter().all(|row| is_short(row.as_slice()))
}

// How many bytes each file has, and the references of each row.
fn written_text(
    alloc: Global,
    files: &[Items<u8>],
    references: &[Items<u64>],
) -> Result<String, AllocError> {
    let mut text = String::new(alloc);
    for file in files {
        write!(text, "{} ", file.len())?;
    }
    for row in references {
        write!(text, "{:?}", row.as_slice())?;
    }
    Ok(text)
}

type Written = (Vec<Items<u8>>, Vec<Items<u64>>);

fn add_row(alloc: Global, files: &mut ChunkFiles, row: &[Chunk]) -> Result<Items<u64>, WriteFault> {
    if !is_short(row) {
        return Err(WriteFault::TooLarge);
    }
    Ok(Items::from_vec(files.add_row(alloc, row)?))
}

// Puts the rows after one another, one by one.
fn write_each(alloc: Global, limit: u32, rows: &[Items<Chunk>]) -> Result<Written, WriteFault> {
    let mut files = ChunkFiles::new(alloc, Encoding::Raw, limit);
    let mut references = Vec::new(alloc);
    for row in rows {
        references.push(add_row(alloc, &mut files, row.as_slice())?)?;
    }
    Ok((files.into_files()?, references))
}

// Whether the chunks that these stand for are no longer than those of 120 samples can be.
fn are_spans_short(row: &[ChunkSpan]) -> bool
    ensures { IsTrue result ↔ All (λ (s : SpanOfRow). s.len ≤ longest_chunk) row.now }
{
    row.iter().all(|span| span.len <= 2180)
}

fn are_all_short(rows: &[Items<ChunkSpan>]) -> bool
    ensures { IsTrue result ↔ All (λ row. All (λ (s : SpanOfRow). s.len ≤ longest_chunk) row) rows.now }
{
    rows.iter().all(|row| are_spans_short(row.as_slice()))
}

fn place(alloc: Global, limit: u32, rows: &[Items<ChunkSpan>]) -> Result<PlacedChunks, WriteFault> {
    if !are_all_short(rows) {
        return Err(WriteFault::TooLarge);
    }
    place_spans(alloc, Encoding::Raw, rows, limit)
}

// The file with these chunks of all chunks of the rows.
fn file_of(alloc: Global, rows: &[Items<Chunk>], file: &FileSpan) -> Result<Items<u8>, WriteFault> {
    let mut bytes = Vec::new(alloc);
    put_file_head(&mut bytes)?;
    let chunks = rows.iter().flat_map(|row| row.as_slice().iter());
    for chunk in chunks.skip(file.first).take(file.count) {
        put_chunk(Encoding::Raw, &mut bytes, chunk.text.as_slice())?;
    }
    Ok(Items::from_vec(bytes))
}

// Places the chunks by their lengths alone, and then puts each in its file.
fn write_placed(alloc: Global, limit: u32, rows: &[Items<Chunk>]) -> Result<Written, WriteFault> {
    let mut spans = Vec::new(alloc);
    for row in rows {
        spans.push(Items::from_vec(spans_of(alloc, row.as_slice())?))?;
    }
    let placed = place(alloc, limit, &spans)?;
    let mut files = Vec::new(alloc);
    for file in placed.files.as_slice() {
        files.push(file_of(alloc, rows, file)?)?;
    }
    Ok((files, placed.references))
}

// Rows of chunks, and the most bytes of a file: written by one call, row by row, and placed first and then written.
enum Writing {
    AtOnce(u32, &'static [Row]),
    RowByRow(u32, &'static [Row]),
    Placed(u32, &'static [Row]),
}

fn write_all(alloc: Global, limit: u32, rows: &[Items<Chunk>]) -> Result<Written, WriteFault> {
    if !are_short(rows) {
        return Err(WriteFault::TooLarge);
    }
    write_chunks(alloc, rows, limit)
}

fn write(alloc: Global, writing: &Writing) -> Result<Written, WriteFault> {
    match writing {
        Writing::AtOnce(limit, rows) => write_all(alloc, *limit, &rows_of(alloc, rows)?),
        Writing::RowByRow(limit, rows) => write_each(alloc, *limit, &rows_of(alloc, rows)?),
        Writing::Placed(limit, rows) => write_placed(alloc, *limit, &rows_of(alloc, rows)?),
    }
}

impl Case for Writing {
    fn text(&self, alloc: Global) -> Result<String, AllocError> {
        match write(alloc, self) {
            Ok((files, references)) => written_text(alloc, &files, &references),
            Err(fault) => shown(alloc, fault),
        }
    }
}

// Each chunk has 1208 bytes in its file, which begins with 8.
const LIMITS: &[(Writing, &str)] = &[
    (
        Writing::AtOnce(4096, &[(0, 4)]),
        "3632 1216 [8, 1216, 2424, 4294967304]",
    ),
    // what the limit meets, and one byte less
    (
        Writing::AtOnce(3632, &[(0, 4)]),
        "3632 1216 [8, 1216, 2424, 4294967304]",
    ),
    (
        Writing::AtOnce(3631, &[(0, 4)]),
        "2424 2424 [8, 1216, 4294967304, 4294968512]",
    ),
    // a file has one chunk at least
    (
        Writing::AtOnce(0, &[(0, 3)]),
        "1216 1216 1216 [8, 4294967304, 8589934600]",
    ),
    (Writing::AtOnce(4096, &[]), ""),
    (Writing::AtOnce(4096, &[(0, 0), (0, 0)]), "[][]"),
];

#[test]
fn chunk_file_limit(rt: HostRuntime) {
    check(&rt, LIMITS);
}

const ROW_BY_ROW: &[(Writing, &str)] = &[
    (
        Writing::AtOnce(4096, &[(0, 1), (1, 4)]),
        "3632 1216 [8][1216, 2424, 4294967304]",
    ),
    (
        Writing::RowByRow(4096, &[(0, 1), (1, 4)]),
        "3632 1216 [8][1216, 2424, 4294967304]",
    ),
    (
        Writing::RowByRow(3631, &[(0, 3), (3, 3), (3, 4)]),
        "2424 2424 [8, 1216, 4294967304][][4294968512]",
    ),
    (Writing::RowByRow(4096, &[]), ""),
];

#[test]
fn rows_of_chunks(rt: HostRuntime) {
    check(&rt, ROW_BY_ROW);
}

const PLACED: &[(Writing, &str)] = &[
    (
        Writing::Placed(4096, &[(0, 1), (1, 4)]),
        "3632 1216 [8][1216, 2424, 4294967304]",
    ),
    (
        Writing::Placed(3632, &[(0, 4)]),
        "3632 1216 [8, 1216, 2424, 4294967304]",
    ),
    (
        Writing::Placed(3631, &[(0, 3), (3, 3), (3, 4)]),
        "2424 2424 [8, 1216, 4294967304][][4294968512]",
    ),
    (
        Writing::Placed(0, &[(0, 3)]),
        "1216 1216 1216 [8, 4294967304, 8589934600]",
    ),
    (Writing::Placed(4096, &[]), ""),
    (Writing::Placed(4096, &[(0, 0), (0, 0)]), "[][]"),
];

#[test]
fn placed_before_they_are_written(rt: HostRuntime) {
    check(&rt, PLACED);
}

fn are_same(placed: &[Items<u8>], files: &[Items<u8>]) -> bool {
    let mut pairs = placed.iter().zip(files);
    placed.len() == files.len() && pairs.all(|(one, other)| one.as_slice() == other.as_slice())
}

// Rows of chunks, and the most bytes of a file: whether the files have the same bytes where the chunks are placed first.
struct Same(u32, &'static [Row]);

impl Case for Same {
    fn text(&self, alloc: Global) -> Result<String, AllocError> {
        let rows = rows_of(alloc, self.1)?;
        match (
            write_placed(alloc, self.0, &rows),
            write_all(alloc, self.0, &rows),
        ) {
            (Ok((placed, _)), Ok((files, _))) => shown(alloc, are_same(&placed, &files)),
            _ => Err(AllocError),
        }
    }
}

const SAME: &[(Same, &str)] = &[
    (Same(4096, &[(0, 1), (1, 4), (4, 11)]), "true"),
    (Same(3631, &[(0, 3), (3, 3), (3, 4)]), "true"),
    (Same(0, &[(7, 9)]), "true"),
];

#[test]
fn placed_chunks_are_the_same_bytes(rt: HostRuntime) {
    check(&rt, SAME);
}

// How many samples a chunk has, the first and the last of them, and the checksum of its data.
fn data_text(alloc: Global, data: &[u8]) -> Result<String, AllocError> {
    match decode_chunk(alloc, data) {
        Ok(samples) => samples_text(alloc, &samples, crc32c(data)),
        Err(fault) => shown(alloc, fault),
    }
}

fn samples_text(alloc: Global, samples: &[Sample], sum: u32) -> Result<String, AllocError> {
    match samples {
        [first, .., last] => {
            let (len, time, value) = (samples.len(), last.time, last.value);
            format!(in alloc;
                "{len} {}={} {time}={value} {sum:08X}",
                first.time, first.value
            )
        }
        _ => String::from_str(alloc, "few"),
    }
}

// The chunk at this reference of the four chunks in two files.
struct At(u64);

impl Case for At {
    fn text(&self, alloc: Global) -> Result<String, AllocError> {
        let Ok((files, _)) = write(alloc, &Writing::AtOnce(4096, &[(0, 4)])) else {
            return Err(AllocError);
        };
        match chunk_at(&files, self.0) {
            Some((Encoding::Raw, data)) => data_text(alloc, data),
            Some((Encoding::Xor, _)) => String::from_str(alloc, "xor"),
            None => String::from_str(alloc, "none"),
        }
    }
}

const CHUNKS: &[(At, &str)] = &[
    (At(8), "120 0=0 119000=119 FBA23839"),
    (At(1216), "120 0=256 119000=375 F57644D2"),
    (At(2424), "120 0=512 119000=631 E60AC1EF"),
    (At(4_294_967_304), "120 0=768 119000=887 E8DEBD04"),
    // a byte too early or too late, where a file begins, where its last chunk ends, and past that
    (At(7), "none"),
    (At(9), "none"),
    (At(0), "none"),
    (At(3632), "none"),
    (At(4_294_967_295), "none"),
    (At(4_294_968_512), "none"),
    // no third file
    (At(8_589_934_600), "none"),
    (At(u64::MAX), "none"),
];

#[test]
fn chunks_at_references(rt: HostRuntime) {
    check(&rt, CHUNKS);
}
