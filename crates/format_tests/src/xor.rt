//! Chunks in Prometheus' XOR encoding: those that the server's own package makes of samples, and bytes that are none.

use crate::cases::{Case, check, of_hex};
use head_column::Sample;
use hw_bytes::crc32c;
use std::alloc::{AllocError, Global};
use std::process::Abort;
use xor_chunk::{XorFault, decode, decode_exact, encode};

// What a line is: "WORDS = TEXT".
#[derive(Clone, Copy)]
enum Kind {
    // Samples, and their chunk: its bytes in hexadecimal, or how many there are and their checksum.
    Samples,
    // Bytes in hexadecimal, and what `decode` and `decode_exact` give of them.
    Bytes,
    // Samples, and what the two give of their chunk cut off before each of its bytes, a letter for each.
    Cuts,
}

#[derive(Clone, Copy)]
struct Line(Kind, &'static str);

impl Case for Line {
    fn text(&self, alloc: Global) -> Result<String, AllocError> {
        match self.0 {
            Kind::Samples => chunk_text(alloc, self.1),
            Kind::Bytes => read_text(alloc, self.1),
            Kind::Cuts => cut_text(alloc, self.1),
        }
    }
}

fn check_lines<R: Abort + AllocGlobal>(rt: &R, kind: Kind, lines: &[&'static str]) {
    for line in lines {
        let (words, wanted) = line.split_once(" = ").unwrap_or((line, "no text"));
        check(rt, &[(Line(kind, words), wanted)]);
    }
}

fn hex(digits: &str) -> u64 {
    u64::from_str_radix(digits, 16).unwrap_or(0)
}

fn value_of(word: &str, before: u64) -> u64 {
    if let Some(step) = word.strip_prefix('+') {
        return before.wrapping_add(hex(step));
    }
    match word.strip_prefix('^') {
        Some(bits) => before ^ hex(bits),
        None => hex(word),
    }
}

fn time_of(word: &str, before: i64) -> i64 {
    match word.strip_prefix('+') {
        Some(step) => before.wrapping_add(step.parse::<i64>().unwrap_or(0)),
        None => word.parse::<i64>().unwrap_or(0),
    }
}

fn sample_of(word: &str, before: Sample) -> Sample {
    let (time, value) = word.split_once('/').unwrap_or((word, "^0"));
    let bits = value_of(value, before.value.cast_unsigned());
    Sample {
        time: time_of(time, before.time),
        value: bits.cast_signed(),
    }
}

// The samples of words TIME/VALUE*COUNT. A TIME is a number, or + and what is added to the time before. A VALUE is 64 bits in hexadecimal, or + or ^
// and what is added to the bits before or xored with them, and is missing where they stay. *COUNT repeats the word.
fn samples_of(alloc: Global, words: &str) -> Result<Vec<Sample>, AllocError> {
    let mut samples = Vec::new(alloc);
    let mut last = Sample { time: 0, value: 0 };
    for word in words.split_whitespace() {
        let (word, count) = word.split_once('*').unwrap_or((word, "1"));
        for _sample in 0..count.parse::<usize>().unwrap_or(0) {
            last = sample_of(word, last);
            samples.push(last)?;
        }
    }
    Ok(samples)
}

// The chunk of the samples, of which there are at most 65,535.
fn chunk_of(alloc: Global, samples: &[Sample]) -> Result<Vec<u8>, AllocError> {
    if samples.len() > 65_535 {
        return Err(AllocError);
    }
    encode(alloc, samples)
}

// The bytes in hexadecimal; or how many there are and their checksum, if there are more than 64.
fn shown_bytes(alloc: Global, bytes: &[u8]) -> Result<String, AllocError> {
    if bytes.len() > 64 {
        return format!(in alloc; "{} {:08X}", bytes.len(), crc32c(bytes));
    }
    let mut text = String::new(alloc);
    for byte in bytes {
        write!(text, "{byte:02X}")?;
    }
    Ok(text)
}

// Returns whether these samples were read.
fn are_read(read: Result<Vec<Sample>, XorFault>, samples: &[Sample]) -> bool {
    match read {
        Ok(read) => read.as_slice() == samples,
        Err(_) => false,
    }
}

// The chunk of the samples, if it is read as these.
fn chunk_text(alloc: Global, words: &str) -> Result<String, AllocError> {
    let samples = samples_of(alloc, words)?;
    let chunk = chunk_of(alloc, &samples)?;
    if !are_read(decode(alloc, &chunk), &samples) {
        return format!(in alloc; "read otherwise");
    }
    if !are_read(decode_exact(alloc, &chunk), &samples) {
        return format!(in alloc; "not read exactly");
    }
    shown_bytes(alloc, &chunk)
}

// How many samples were read, or the fault.
fn outcome(alloc: Global, read: Result<Vec<Sample>, XorFault>) -> Result<String, AllocError> {
    match read {
        Ok(samples) => format!(in alloc; "{}", samples.len()),
        Err(fault) => format!(in alloc; "{fault:?}"),
    }
}

fn read_text(alloc: Global, bytes: &str) -> Result<String, AllocError> {
    let bytes = of_hex(alloc, bytes)?;
    let read = outcome(alloc, decode(alloc, &bytes))?;
    let exact = outcome(alloc, decode_exact(alloc, &bytes))?;
    format!(in alloc; "{} {}", read.as_str(), exact.as_str())
}

fn mark(read: Result<Vec<Sample>, XorFault>) -> char {
    match read {
        Ok(_) => '.',
        Err(XorFault::TooShort) => 'S',
        Err(XorFault::BadNumber) => 'N',
        Err(XorFault::BadWindow) => 'W',
        Err(XorFault::NotCanonical) => 'X',
        Err(XorFault::Memory) => 'M',
    }
}

fn cut_text(alloc: Global, words: &str) -> Result<String, AllocError> {
    let samples = samples_of(alloc, words)?;
    let chunk = chunk_of(alloc, &samples)?;
    let mut text = String::new(alloc);
    for len in 0..chunk.len() {
        let (cut, _) = chunk.split_at(len);
        text.push(mark(decode(alloc, cut)))?;
        text.push(mark(decode_exact(alloc, cut)))?;
    }
    Ok(text)
}

// Chunks that the server's own package makes: .ci/xor_vectors.go fills them in, and compares them.
const CHUNKS: &[&str] = &[
    // none, one, and two samples
    " = 0000",
    "0/0 = 000100000000000000000000",
    "-1000/4045000000000000 = 0001CF0F404500000000000000",
    "1600000000000/3FF0000000000000 = 00018080F4F6905D3FF000000000000000",
    "-9223372036854775808/7FF0000000000002 = 0001FFFFFFFFFFFFFFFFFF017FF000000000000200",
    "9223372036854775807/FFFFFFFFFFFFFFFF = 0001FEFFFFFFFFFFFFFFFF01FFFFFFFFFFFFFFFF00",
    "7/1 +0 = 00020E00000000000000010000",
    "0/3FF0000000000000 +15000 = 0002003FF0000000000000987500",
    "0/3FF0000000000000 +15000/4000000000000000 = 0002003FF00000000000009875C25FFF",
    "0/3FF0000000000000 +-15000 = 0002003FF0000000000000E88AFFFFFFFFFFFFFF0100",
    "0/0 127 = 00020000000000000000007F00",
    "0/0 128 = 0002000000000000000000800100",
    "-9223372036854775808/0 +-1 = 0002FFFFFFFFFFFFFFFFFF010000000000000000FFFFFFFFFFFFFFFFFF0100",
    "9223372036854775807/0 +1 = 0002FEFFFFFFFFFFFFFFFF0100000000000000000100",
    "0/0 +-9223372036854775808 = 00020000000000000000008080808080808080800100",
    // windows: of 64 bits, of 1, with 30, 31 and 32 zeros in front, and of whole bytes
    "0/0 +1/^FFFFFFFFFFFFFFFF = 000200000000000000000001C007FFFFFFFFFFFFFFF8",
    "0/0 +1/^8000000000000001 = 000200000000000000000001C0040000000000000008",
    "0/0 +1/^1 = 000200000000000000000001FF0800000004",
    "0/0 +1/^8000000000000000 = 000200000000000000000001C00C",
    "0/0 +1/^200000000 = 000200000000000000000001FC0C",
    "0/0 +1/^100000000 = 000200000000000000000001FE0C",
    "0/0 +1/^80000000 = 000200000000000000000001FE12",
    "0/0 +1/^FF00000000000000 = 000200000000000000000001C047F8",
    "0/0 +1/^FFFF000000000000 = 000200000000000000000001C087FFF8",
    "0/0 +1/^FFFFFFFF = 000200000000000000000001FF0BFFFFFFFC",
    "0/0 +1/^7FFFFFFFFFFFFFFF +1/^FFFFFFFFFFFFFFFE = 000300000000000000000001C3FFFFFFFFFFFFFFFFF60FFFFFFFFFFFFFFFFF80",
    // the difference of two differences at the ends of each class
    "0/0 +15000 +15000 = 0003000000000000000000987500",
    "0/0 +15000 +15001 = 00030000000000000000009875400080",
    "0/0 +15000 +14999 = 000300000000000000000098755FFF80",
    "0/0 +15000 +6809 = 00030000000000000000009875500080",
    "0/0 +15000 +6808 = 000300000000000000000098756F0000",
    "0/0 +15000 +23192 = 00030000000000000000009875500000",
    "0/0 +15000 +23193 = 00030000000000000000009875610008",
    "0/0 +15000 +-50535 = 00030000000000000000009875680008",
    "0/0 +15000 +-50536 = 0003000000000000000000987577800000",
    "0/0 +15000 +80536 = 00030000000000000000009875680000",
    "0/0 +15000 +80537 = 0003000000000000000000987570800080",
    "0/0 +15000 +-509287 = 0003000000000000000000987574000080",
    "0/0 +15000 +-509288 = 000300000000000000000098757FFFFFFFFFFFC00000",
    "0/0 +15000 +539288 = 0003000000000000000000987574000000",
    "0/0 +15000 +539289 = 00030000000000000000009875780000000000400008",
    "0/0 +1 +-9223372036854775807 = 0003000000000000000000017C0000000000000000",
    "0/0 +1 9223372036854775807 = 0003000000000000000000017BFFFFFFFFFFFFFFE8",
    "9223372036854775807/0 +1 +-1 +1 = 0004FEFFFFFFFFFFFFFFFF010000000000000000015FFF200080",
    "-9223372036854775808/0 0 9223372036854775807 -1 1 = 0005FFFFFFFFFFFFFFFFFF010000000000000000808080808080808080015FFFA0005F0000000000000004",
    "5/0 5 5 5 = 00040A00000000000000000000",
    "5/0 4 3 2 0 -4 = 00060A0000000000000000FFFFFFFFFFFFFFFFFF0105FFFAFFF8",
    // a window that is used again, that would leave out a bit above or below, and that is as wide
    "0/0 +1/^FF0000 +1/^FF0000 +1/^10000 +1/^800000 = 000500000000000000000001FE8803FD003FD00005002000",
    "0/0 +1/^FF0000 +1/^8000 = 000300000000000000000001FE8803FDFD200004",
    "0/0 +1/^FF00000000000 +1/^100000000000000 +1/^1000000000000 = 000400000000000000000001D847FB3836F060",
    "0/0 +1/^F0000000000000 +1/^FFFF0000000000 = 000300000000000000000001D027B421FFFE",
    "0/0 +1/^FFFF0000000000 +1/^F0000000000000 +1 +1/^F0000000000 = 000500000000000000000001D087FFFAF000100078",
    "0/0 +1 +1/^1000 +1/^1000 +1/^FFF +1/^1000 = 0006000000000000000000013FAA000014000017F8400001FFE800002000",
    "0/0 +1/^FFFFFFFFFFFFFFFF +1/^1 +1/^8000000000000000 +1/^100 = 000500000000000000000001C007FFFFFFFFFFFFFFFA00000000000000015000000000000000080000000000000400",
    // counters, gauges, and values that stay
    "1600000000000/0 +15000/3FF0000000000000 +15000/4000000000000000 +15000/4008000000000000 +15000/4010000000000000 +15000/4014000000000000 +15000/4018000000000000 = 00078080F4F6905D00000000000000009875C457FEC25FFF6C06D616DA0DB02C",
    "1600000000000/412E848000000000 +15002/412E84A800000000 +14998/412E84D200000000 +15001/412E84FA00000000 +15000/412E852400000000 = 00058080F4F6905D412E8480000000009A75F41DBFFCF237B0007297FFFDC8EF00",
    "1600000000000/40091EB851EB851F +15000/4008F5C28F5C28F6 +15000/40090A3D70A3D70A +15000/C008000000000000 +15000/3FB999999999999A = 00058080F4F6905D40091EB851EB851F9875DF8FADEB7ADEB7A57FFFFFFFFFFF183F80010A3D70A3D70ABFEC66666666666680",
    "1000/3FF0000000000000 16000/4000000000000000 31000 46003/4008000000000000 70000/7FF8000000000001 50000/7FF0000000000002 = 0006D00F3FF00000000000009875C25FFF2000F603C2322C5F7FE0000000000003AA84700100000000000060",
    // staleness markers, other NaNs, infinities, zeros, and the least numbers
    "1600000000000/3FF0000000000000 +15000/7FF0000000000002 = 00028080F4F6905D3FF00000000000009875C3F40000000000000020",
    "1600000000000/4045000000000000 +15000 +15000/7FF0000000000002 +300000/4045000000000000 +15000 = 00058080F4F6905D40450000000000009875317BFDA800000000001E45948BFB5000000000003D74D700",
    "0/7FF8000000000001 +1/7FF0000000000001 +1/FFF8000000000000 +1/7FFFFFFFFFFFFFFF +1/FFFFFFFFFFFFFFFF +1/7FF0000000000002 = 0006007FF800000000000101D80D80080080000000000015000FFFFFFFFFFFFEA00000000000000014007FFFFFFFFFFFE8",
    "0/7FF0000000000000 +1/FFF0000000000000 +1/0 +1/8000000000000000 +1/1 = 0005007FF000000000000001C00D80CFFF5000C0040000000000000008",
    // 3 and 120 samples, and as many as a chunk can have
    "1600000000000/3FF0000000000000 +60000 +60000/4000000000000000 = 00038080F4F6905D3FF0000000000000E0D4033097FFC0",
    "1600000000000/3FF0000000000000 +15000*119 = 00788080F4F6905D3FF00000000000009875000000000000000000000000000000000000000000000000000000000000",
    "1600000000000/3FF0000000000000 +15000/+10000000000000*119 = 228 4A186916",
    "1600000000000/4045000000000000 +15000/^3*60 +15001/^C00*59 = 557 DEF3B635",
    "1600000000000/0 +15000/+123456789ABCDEF1*50 +25000/+FEDCBA987654321*69 = 1022 EE35C173",
    "0/0 +1000 +9193 +1001 +9194 +1001/^10 +66537 +1000/^F0 +525288 +1000/^F000 +525289 +1000*109 = 98 D1D7A48C",
    "0/0 +1*65534 = 16396 812238BB",
];

#[test]
fn xor_chunks_of_the_server(rt: HostRuntime) {
    check_lines(&rt, Kind::Samples, CHUNKS);
}

const BYTES: &[&str] = &[
    " = TooShort TooShort",
    "00 = TooShort TooShort",
    "0000 = 0 0",
    "0000 00 = 0 NotCanonical",
    // one sample: no time, no value, a time of 11 bytes and one past 64 bits, a longer spelling, no empty byte after it, and two
    "0001 = BadNumber BadNumber",
    "0001 80 = BadNumber BadNumber",
    "0001 00 = TooShort TooShort",
    "0001 00 00000000000000 = TooShort TooShort",
    "0001 8080808080808080808000 0000000000000000 00 = BadNumber BadNumber",
    "0001 80808080808080808002 0000000000000000 00 = BadNumber BadNumber",
    "0001 8000 0000000000000000 00 = 1 NotCanonical",
    "0001 00 0000000000000000 = 1 NotCanonical",
    "0001 00 0000000000000000 00 = 1 1",
    "0001 00 0000000000000000 0000 = 1 NotCanonical",
    "0001 00 0000000000000000 01 = 1 NotCanonical",
    // two samples: no difference of times, one that is too long, no value, bits after the last sample
    "0002 00 0000000000000000 = BadNumber BadNumber",
    "0002 00 0000000000000000 FF = BadNumber BadNumber",
    "0002 00 0000000000000000 01 = TooShort TooShort",
    "0002 00 0000000000000000 01 00 = 2 2",
    "0002 00 0000000000000000 01 40 = 2 NotCanonical",
    "0002 00 0000000000000000 01 01 = 2 NotCanonical",
    "0002 00 0000000000000000 01 00 00 = 2 NotCanonical",
    "0002 00 0000000000000000 8100 00 = 2 NotCanonical",
    // more samples than there are, also where zeros after the last one stand for some
    "0003 00 0000000000000000 01 00 = 3 3",
    "0005 00 0000000000000000 01 00 = 5 5",
    "0006 00 0000000000000000 01 00 = TooShort TooShort",
    "FFFF 00 0000000000000000 01 00 = TooShort TooShort",
    // a window: cut off, of more than 64 bits, of 64, with more bits than it needs, and used before one was opened
    "0002 00 0000000000000000 01 80 = TooShort TooShort",
    "0002 00 0000000000000000 01 C0 = TooShort TooShort",
    "0002 00 0000000000000000 01 C000 = TooShort TooShort",
    "0002 00 0000000000000000 01 C200 8000000000000000 00 = BadWindow BadWindow",
    "0002 00 0000000000000000 01 FF08 = TooShort TooShort",
    "0002 00 0000000000000000 01 FF10 = BadWindow BadWindow",
    "0002 00 0000000000000000 01 FFF8 FFFFFFFFFFFFFFFF = BadWindow BadWindow",
    "0002 00 0000000000000000 01 C004 0000000000000008 00 = 2 NotCanonical",
    "0002 00 0000000000000000 01 C00C = 2 2",
    "0002 00 0000000000000000 01 C00C 00 = 2 NotCanonical",
    "0002 00 0000000000000000 01 C014 = 2 NotCanonical",
    "0002 00 0000000000000000 01 8000000000000000 40 = 2 NotCanonical",
    // a third sample: the difference of two differences in more bits than it needs, 8,192 in 14 bits, and cut off
    "0003 00 0000000000000000 01 40 0000 = 3 NotCanonical",
    "0003 00 0000000000000000 01 40 0080 = 3 3",
    "0003 00 0000000000000000 01 60 0008 = 3 NotCanonical",
    "0003 00 0000000000000000 01 70 000080 = 3 NotCanonical",
    "0003 00 0000000000000000 01 78 0000000000000008 = 3 NotCanonical",
    "0003 00 0000000000000000 01 50 00 = TooShort TooShort",
    "0003 00 0000000000000000 01 50 0000 = 3 3",
    "0003 00 0000000000000000 01 78 00000000000000 = TooShort TooShort",
];

#[test]
fn bytes_that_are_no_xor_chunk(rt: HostRuntime) {
    check_lines(&rt, Kind::Bytes, BYTES);
}

const CUTS: &[&str] = &[
    "1600000000000/3FF0000000000000 = SSSSNNNNNNNNNNNNSSSSSSSSSSSSSSSS.X",
    "0/0 +1/^FF00000000000000 = SSSSNNSSSSSSSSSSSSSSSSNNSSSSSS",
    "-1000/4045000000000000 +15000 +15000/4000000000000000 +15003/4008000000000000 = SSSSNNNNSSSSSSSSSSSSSSSSNNNNSSSSSSSSSSSS",
];

#[test]
fn xor_chunks_cut_off(rt: HostRuntime) {
    check_lines(&rt, Kind::Cuts, CUTS);
}
