//! Indices, written and read.

ghost use Rattle.index_text.specs.Rows.{AreRows};

use crate::cases::{Case, check, of_hex, put_at, shown};
use block_index::{
    IndexRow, NumberedRows, read_index, read_numbered_index, write_index, write_numbered_index,
};
use std::alloc::{AllocError, Global};
use wal_record::LabelSet;

// Each text is hexadecimal digits, and was laid out by hand or by another program from what the format says. A checksum is
// after two spaces.

// The symbols a, b and job; job=a and job=b, the series 2 and 3, aligned to 16; the values of job; the postings of all, of job=a and of
// job=b; the two tables of offsets; and the table of contents.
pub(crate) const THREE_SERIES: &str = "BAAAD700 02 \
    0000000C 00000003 0161 0162 036A6F62  33D255B6 00000000000000 \
    08 01 0200 01 A01F 00 08  1E5C5BCC 000000 \
    09 01 0201 01 D00F D00F 1A  C32069C3 0000 \
    00000010 00000001 00000002 00000000 00000001  6D58FBED \
    0000000C 00000002 00000002 00000003  A5834390 \
    00000008 00000001 00000002  5502ADD1 \
    00000008 00000001 00000003  A7692ED2 \
    0000000A 00000001 01 036A6F62 40  955F2570 \
    00000018 00000003 02 00 00 58 02 036A6F62 0161 6C 02 036A6F62 0162 7C  53C40EC8 \
    0000000000000005 0000000000000019 000000000000003E \
    000000000000008C 0000000000000058 000000000000009E  35B02976";

// The symbols are no text, 1, 10, 9, a, b, c, dd, q, x, y and z. The rows have the values 9, 10, 1 and 9 of c in this order; its label
// index names them as 1, 10 and 9. The second row's second chunk is before its first one, and the third row has all times.
const UNSORTED_VALUES: &str = "BAAAD700 02 \
    0000001D 0000000C 00 0131 023130 0139 0161 0162 0163 026464 0171 0178 0179 017A  631D734D 000000000000 \
    09 02 0409 0603 01 09 00 08  BA8198B8 0000 \
    11 03 040A 0500 0602 02 00 D8A107 64 E807 00 77  144DAD5A 00000000000000000000 \
    26 03 040B 0508 0601 01 FFFFFFFFFFFFFFFFFF01 FFFFFFFFFFFFFFFFFF01 FFFFFFFFFFFFFFFFFF01  3B2D9375 0000000000 \
    0F 03 0508 0603 0704 01 02 01 8880808010  282DD954 \
    00000014 00000001 00000003 00000009 0000000A 0000000B  D2D699E3 \
    00000010 00000001 00000002 00000000 00000008  15EA2021 \
    00000014 00000001 00000003 00000001 00000002 00000003  251B382A \
    0000000C 00000001 00000001 00000004  20D59BA6 \
    00000014 00000004 00000003 00000004 00000006 00000009  A1D6610B \
    00000008 00000001 00000003  A7692ED2 \
    00000008 00000001 00000004  73A34A39 \
    00000008 00000001 00000006  92983ACE \
    00000008 00000001 00000004  73A34A39 \
    0000000C 00000002 00000006 00000009  2E24D518 \
    00000008 00000001 00000006  92983ACE \
    00000008 00000001 00000004  73A34A39 \
    0000000C 00000002 00000003 00000009  F6700404 \
    00000008 00000001 00000009  CC8B06EA \
    00000019 00000004 01 0161 A401 01 0162 C001 01 0163 D801 01 026464 F401  BBAE9D34 \
    00000049 0000000A 02 00 00 8802 02 0161 0178 A402 02 0161 0179 B402 02 0161 017A C402 02 0162 00 D402 02 0162 0171 E402 \
    02 0163 0131 F802 02 0163 023130 8803 02 0163 0139 9803 02 026464 0161 AC03  B2C402F0 \
    0000000000000005 000000000000002A 00000000000000A4 \
    00000000000001BC 0000000000000108 00000000000001DD  817560B2";

// Letters stand for themselves.
fn push_letters(text: &mut String, bytes: &[u8]) -> Result<(), AllocError> {
    for byte in bytes {
        text.push(char::from(*byte))?;
    }
    Ok(())
}

// A label set, as `a=1 b= `.
pub(crate) fn push_labels(text: &mut String, labels: &LabelSet) -> Result<(), AllocError> {
    for i in 0..labels.len() {
        let (name, value) = labels.pair(i);
        push_letters(text, name)?;
        text.push('=')?;
        push_letters(text, value)?;
        text.push(' ')?;
    }
    Ok(())
}

// Rows, each as its labels and its chunks, and after it a semicolon.
fn push_rows(text: &mut String, rows: &[IndexRow]) -> Result<(), AllocError> {
    for row in rows {
        push_labels(text, &row.labels)?;
        for chunk in row.chunks.as_slice() {
            let (min_time, max_time) = (chunk.min_time, chunk.max_time);
            write!(text, "{min_time}..{max_time}@{} ", chunk.reference)?;
        }
        text.push(';')?;
    }
    Ok(())
}

fn rows_text(alloc: Global, rows: &[IndexRow]) -> Result<String, AllocError> {
    let mut text = String::new(alloc);
    push_rows(&mut text, rows)?;
    Ok(text)
}

// The rows of an index.
fn read_text(alloc: Global, bytes: &[u8]) -> Result<String, AllocError> {
    match read_index(alloc, bytes) {
        Ok(rows) => rows_text(alloc, &rows),
        Err(fault) => shown(alloc, fault),
    }
}

// The ids of an index's rows, whether these bytes are written of the rows, by each of the calls that write an index, and with which ids.
fn written_text(
    alloc: Global,
    bytes: &[u8],
    rows: &[IndexRow],
    ids: &[u32],
) -> Result<String, AllocError>
    requires { AreRows rows.now }
{
    let (Ok(text), Ok(again)) = (write_index(alloc, rows), write_numbered_index(alloc, rows)) else {
        return shown(alloc, "not written");
    };
    let is_same = text.as_slice() == bytes && again.text.as_slice() == bytes;
    shown(alloc, (ids, is_same, again.ids.as_slice()))
}

fn again_text(alloc: Global, bytes: &[u8]) -> Result<String, AllocError> {
    match read_numbered_index(alloc, bytes) {
        Ok(read) => written_text(alloc, bytes, read.rows.as_slice(), read.ids.as_slice()),
        Err(fault) => shown(alloc, fault),
    }
}

// An index that is read, or written again of what was read.
enum Reading {
    Rows(&'static str),
    Again(&'static str),
}

impl Case for Reading {
    fn text(&self, alloc: Global) -> Result<String, AllocError> {
        match self {
            Reading::Rows(digits) => read_text(alloc, &of_hex(alloc, digits)?),
            Reading::Again(digits) => again_text(alloc, &of_hex(alloc, digits)?),
        }
    }
}

const READINGS: &[(Reading, &str)] = &[
    (
        Reading::Rows(THREE_SERIES),
        "job=a 2000..2000@8 ;job=b 1000..3000@26 ;",
    ),
    (Reading::Again(THREE_SERIES), "([2, 3], true, [2, 3])"),
    (
        Reading::Rows(UNSORTED_VALUES),
        "a=x c=9 -5..-5@8 ;\
        a=y b= c=10 0..119000@100 120000..120000@40 ;\
        a=z b=q c=1 -9223372036854775808..9223372036854775807@18446744073709551615 ;\
        b=q c=9 dd=a 1..2@4294967304 ;",
    ),
    (
        Reading::Again(UNSORTED_VALUES),
        "([3, 4, 6, 9], true, [3, 4, 6, 9])",
    ),
];

#[test]
fn rows_of_indices(rt: HostRuntime) {
    check(&rt, READINGS);
}

// The index of three series, where at each offset these bytes stand, in hexadecimal digits, in the place of its own.
struct Changed(&'static [(usize, &'static str)]);

impl Case for Changed {
    fn text(&self, alloc: Global) -> Result<String, AllocError> {
        let mut bytes = of_hex(alloc, THREE_SERIES)?;
        for (at, digits) in self.0 {
            put_at(&mut bytes, *at, &of_hex(alloc, digits)?);
        }
        shown(alloc, read_index(alloc, &bytes).err())
    }
}

const CHANGED: &[(Changed, &str)] = &[
    (Changed(&[(0, "00")]), "Some(BadMagic)"),
    (Changed(&[(4, "01")]), "Some(BadVersion)"),
    (Changed(&[(190, "01")]), "Some(BadToc)"),
    (Changed(&[(14, "62")]), "Some(BadSum)"),
    (Changed(&[(25, "01")]), "Some(BadSection)"),
    // the two ids of all series exchanged
    (
        Changed(&[(96, "00000003 00000002"), (104, "6FF9AF3F")]),
        "Some(NotCanonical)",
    ),
    // the count of symbols as it is
    (Changed(&[(9, "00000003"), (21, "33D255B6")]), "None"),
];

#[test]
fn changed_index(rt: HostRuntime) {
    check(&rt, CHANGED);
}

// Counts of 2^20 and of 2^32 - 1 with the right checksum: of symbols, of a series' labels and of its chunks, of the values of a
// label, of postings, and of the entries of both tables.
const INVENTED: &[(Changed, &str)] = &[
    (
        Changed(&[(9, "00100000"), (21, "77EDE4F6")]),
        "Some(BadSection)",
    ),
    (
        Changed(&[(9, "FFFFFFFF"), (21, "FEE2133D")]),
        "Some(BadSection)",
    ),
    (
        Changed(&[(33, "808040 0000000000"), (41, "434371F1")]),
        "Some(BadSection)",
    ),
    (
        Changed(&[(33, "FFFFFFFF0F 000000"), (41, "10BB24D3")]),
        "Some(BadSection)",
    ),
    (
        Changed(&[(33, "00 808040 00000000"), (41, "521F6106")]),
        "Some(BadSection)",
    ),
    (
        Changed(&[(33, "00 FFFFFFFF0F 0000"), (41, "84487DB4")]),
        "Some(BadSection)",
    ),
    (
        Changed(&[(72, "00100000"), (84, "DD599CE5")]),
        "Some(BadSection)",
    ),
    (
        Changed(&[(72, "FFFFFFFF"), (84, "54566B2E")]),
        "Some(BadSection)",
    ),
    (
        Changed(&[(92, "00100000"), (104, "15822498")]),
        "Some(BadSection)",
    ),
    (
        Changed(&[(92, "FFFFFFFF"), (104, "9C8DD353")]),
        "Some(BadSection)",
    ),
    (
        Changed(&[(144, "00100000"), (154, "88579A67")]),
        "Some(BadSection)",
    ),
    (
        Changed(&[(144, "FFFFFFFF"), (154, "E17E062C")]),
        "Some(BadSection)",
    ),
    (
        Changed(&[(162, "00100000"), (186, "0060CBA8")]),
        "Some(BadSection)",
    ),
    (
        Changed(&[(162, "FFFFFFFF"), (186, "3FDE9BEE")]),
        "Some(BadSection)",
    ),
];

#[test]
fn invented_counts(rt: HostRuntime) {
    check(&rt, INVENTED);
}
