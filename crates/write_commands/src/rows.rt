//! Parsing a file of rows.

ghost use Rattle.std.specs.Prelude.{◌≡◌, ◌<◌, ◌++◌, IfOk, IfSome, IsOk, IsSome, List, length, map};
ghost use Rattle.head_live.specs.Rows.{row_again};
ghost use Rattle.write_commands.specs.RowParts.{ArePartsOf, AreSpelled, IsPlaced, SpellsLabels, labels_behind, labels_of, sets_of};
ghost use Rattle.write_commands.specs.RowTexts.{AreRowsOf, IsNumberText, IsRowLine, IsValueText};

use answers::{Fault, read_pair};
use float_text::bits_of_text;
use hash_seed::HashSeed;
use head_live::{AgainRow, RawRow};
use indexmap::IndexSet;
use std::alloc::{AllocError, Global};
use std::str;

// Parses a number: an optional minus and decimal digits.
fn read_number(word: &str) -> Option<i64>
    ensures { IfSome result (IsNumberText word.now) }
{
    let digits = word.strip_prefix('-').unwrap_or(word);
    if digits.is_empty() || !digits.bytes().all(|byte| byte.is_ascii_digit()) {
        return None;
    }
    word.parse().ok()
}

// Parses a value: a floating point number, which stands for its bits, or else a number.
fn read_value(word: &str, floats: bool) -> Option<i64>
    ensures { IfSome result (IsValueText floats word.now) }
{
    if floats {
        bits_of_text(word)
    } else {
        read_number(word)
    }
}

/// A row whose labels are not parsed yet.
#[derive(Drop)]
pub struct RowParts<'a> {
    pub time: i64,
    pub value: i64,
    /// The labels, separated by one space.
    pub labels: &'a str,
}

// Splits what follows the time of a row into the word of the value and the text of the labels.
fn split_value(rest: &str) -> Option<(&str, &str)>
    ensures { IfSome result (λ parts. rest.now ≡ parts.0.now ++ labels_behind parts.1.now) }
{
    let Some((value, labels)) = rest.split_once(' ') else {
        return Some((rest, ""));
    };
    if labels.is_empty() {
        return None;
    }
    Some((value, labels))
}

/// Parses the time and the value of a row: `TIME VALUE LABEL ..`, separated by one space. Returns `None` if it is no row, but the labels are not
/// looked at.
pub fn read_parts(line: &str, floats: bool) -> Option<RowParts<'_>>
    ensures { IfSome result (ArePartsOf floats line.now) }
{
    let (time, rest) = line.split_once(' ')?;
    let (value, labels) = split_value(rest)?;
    Some(RowParts {
        time: read_number(time)?,
        value: read_value(value, floats)?,
        labels,
    })
}

/// Parses labels as they are printed, separated by one space. Returns `None` if they are not spelled so.
pub fn read_labels(alloc: Global, text: &str) -> Result<Option<Vec<(Vec<u8>, Vec<u8>)>>, AllocError>
    ensures { IfOk result (λ found. IfSome found (λ pairs. SpellsLabels text.now (labels_of pairs.items))) }
{
    let mut pairs = Vec::new(alloc);
    if text.is_empty() {
        return Ok(Some(pairs));
    }
    for word in text.split(' ') {
        let Some(pair) = read_pair(alloc, word)? else {
            return Ok(None);
        };
        pairs.push(pair)?;
    }
    Ok(Some(pairs))
}

/// The rows of a file.
#[derive(Drop)]
pub struct FileRows {
    /// The first row of each distinct text of labels.
    pub first: Vec<RawRow>,
    /// Each row, with the place of its labels among the first rows.
    pub rows: Vec<AgainRow>,
}

// Returns the place of the labels of a row among the first rows. They are parsed if their text is new.
fn place_of<'a>(
    alloc: Global,
    texts: &mut IndexSet<&'a str, HashSeed>,
    first: &mut Vec<RawRow>,
    parts: &RowParts<'a>,
) -> Result<Option<usize>, AllocError>
    requires spelled { AreSpelled texts.old.keys first.old.items }
    ensures spelled { IfOk result (λ found. IsSome found → AreSpelled texts.new.keys first.new.items) }
    ensures place { IfOk result (λ found. IfSome found (λ place. IsPlaced parts.now.labels.now first.new.items place)) }
    ensures more { IsOk result → (more : List RawRow) × (first.new.items ≡ first.old.items ++ more) }
{
    let (place, is_new) = texts.insert_full(parts.labels)?;
    if is_new {
        let Some(pairs) = read_labels(alloc, parts.labels)? else {
            return Ok(None);
        };
        first.push(RawRow {
            pairs,
            time: parts.time,
            value: parts.value,
        })?;
    }
    Ok(Some(place))
}

// Parses the bytes of a line as a row.
fn read_row<'a>(
    alloc: Global,
    texts: &mut IndexSet<&'a str, HashSeed>,
    first: &mut Vec<RawRow>,
    line: &'a [u8],
    floats: bool,
) -> Result<Option<AgainRow>, AllocError>
    requires spelled { AreSpelled texts.old.keys first.old.items }
    ensures spelled { IfOk result (λ found. IsSome found → AreSpelled texts.new.keys first.new.items) }
    ensures row { IfOk result (λ found. IfSome found (λ row. IsRowLine floats line.now (row_again (sets_of first.new.items) row))) }
    ensures within { IfOk result (λ found. IfSome found (λ row. row.place < length first.new.items)) }
    ensures more { IsOk result → (more : List RawRow) × (first.new.items ≡ first.old.items ++ more) }
{
    let Ok(line) = str::from_utf8(line) else {
        return Ok(None);
    };
    let Some(parts) = read_parts(line, floats) else {
        return Ok(None);
    };
    let Some(place) = place_of(alloc, texts, first, &parts)? else {
        return Ok(None);
    };
    Ok(Some(AgainRow {
        place,
        time: parts.time,
        value: parts.value,
    }))
}

/// Parses the rows of a file, one a line, whose values are floating point numbers or not. The last newline may be missing. Labels that are spelled
/// as those of an earlier row are parsed once. Returns `NotARow` with the first line that is no row.
pub fn read_rows(alloc: Global, bytes: &[u8], floats: bool) -> Result<FileRows, Fault>
    ensures rows { IfOk result (λ found. AreRowsOf floats bytes.now (map (row_again (sets_of found.first.items)) found.rows.items)) }
{
    let mut texts = IndexSet::with_hasher(alloc, HashSeed::known());
    let mut first = Vec::new(alloc);
    let mut rows = Vec::new(alloc);
    if bytes.is_empty() {
        return Ok(FileRows { first, rows });
    }
    let lines = bytes.strip_suffix(b"\n").unwrap_or(bytes);
    for (line, bytes) in (1..).zip(lines.split(|byte| *byte == b'\n')) {
        match read_row(alloc, &mut texts, &mut first, bytes, floats)? {
            Some(row) => rows.push(row)?,
            None => return Err(Fault::NotARow { line }),
        }
    }
    Ok(FileRows { first, rows })
}
