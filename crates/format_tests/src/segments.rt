//! Segments that a writer wrote, and what is read of them.

use crate::cases::{Case, check};
use std::alloc::{AllocError, Global};
use std::io::{self, ErrorKind, Write};
use wal_log::*;

// What a device does once, when it is full.
#[derive(Clone, Copy)]
enum Full {
    TakesNone,
    Fails(ErrorKind),
}

// How many bytes a device takes at once, how many it takes before it is full, and what it does then.
type Manner = (usize, usize, Full);

const TAKES_ALL: Manner = (usize::MAX, usize::MAX, Full::TakesNone);

#[derive(Drop)]
struct Device {
    taken: Vec<u8>,
    at_once: usize,
    most: usize,
    full: Full,
}

impl Device {
    fn new(alloc: Global, manner: Manner) -> Device {
        let (at_once, most, full) = manner;
        Device {
            taken: Vec::new(alloc),
            at_once,
            most,
            full,
        }
    }
}

impl Write for Device {
    ghost use Rattle.std.specs.Prelude.{Some};

    ghost contents = { λ d. Some d.taken.items };

    fn write(&mut self, buf: &[u8]) -> io::Result<usize> {
        let room = self.most.saturating_sub(self.taken.len());
        if room == 0 {
            self.most = usize::MAX;
            return match self.full {
                Full::TakesNone => Ok(0),
                Full::Fails(kind) => Err(io::Error::from(kind)),
            };
        }
        let count = buf.len().min(self.at_once).min(room);
        self.taken.extend_from_slice(&buf[..count])?;
        Ok(count)
    }

    fn flush(&mut self) -> io::Result<()> {
        Ok(())
    }
}

// One call of `log`: its first record, which is so many sevens and these bytes, and perhaps a second.
struct Call(usize, &'static [u8], Option<&'static [u8]>);

// What each call gives: how long the segment is then, or the fault.
fn push_calls<W: Write>(
    text: &mut String,
    alloc: Global,
    log: &mut LogWriter<W>,
    calls: &[Call],
) -> Result<(), AllocError> {
    for Call(sevens, bytes, second) in calls {
        let mut first = Vec::from_elem(alloc, 7, *sevens)?;
        first.extend_from_slice(bytes)?;
        match log.log(&first, *second) {
            Ok(()) => write!(text, "{} ", log.done())?,
            Err(fault) => write!(text, "{fault:?} ")?,
        }
    }
    Ok(())
}

// What a device holds: how many bytes, up to 24 of them from an offset, and the records there by offset and length, with their fault.
fn push_device(
    text: &mut String,
    alloc: Global,
    device: Device,
    from: usize,
) -> Result<(), AllocError> {
    write!(text, "| {} ", device.taken.len())?;
    for byte in device.taken.iter().skip(from).take(24) {
        write!(text, "{byte:02X}")?;
    }
    let segment = Segment {
        number: 0,
        bytes: Items::from_vec(device.taken),
    };
    let joined = read_segment(alloc, &segment)?;
    for piece in joined.pieces.as_slice() {
        write!(text, " {}+{}", piece.offset, piece.bytes.as_slice().len())?;
    }
    write!(text, " {:?}", joined.fault)?;
    Ok(())
}

// A segment of so many pages on a device of such a manner, what is logged there, from where the device is shown, and what is logged
// in the next segment on a device that takes all.
struct Log(u32, Manner, &'static [Call], usize, &'static [Call]);

fn push_segment<'a>(
    text: &mut String,
    alloc: Global,
    mut log: LogWriter<&'a mut Device>,
    next: &'a mut Device,
    case: &Log,
) -> Result<(), AllocError> {
    push_calls(text, alloc, &mut log, case.2)?;
    match log.next_segment(next) {
        Ok(_left) => text.push_str("next ")?,
        Err((_next, fault)) => write!(text, "{fault:?} ")?,
    }
    push_calls(text, alloc, &mut log, case.4)
}

impl Case for Log {
    fn text(&self, alloc: Global) -> Result<String, AllocError> {
        let mut text = String::new(alloc);
        let mut device = Device::new(alloc, self.1);
        let mut next = Device::new(alloc, TAKES_ALL);
        let log = LogWriter::new(alloc, &mut device, self.0.clamp(1, 4096));
        push_segment(&mut text, alloc, log, &mut next, self)?;
        push_device(&mut text, alloc, device, self.3)?;
        Ok(text)
    }
}

const NINE: &[u8] = b"123456789";

const PADDED: &[(Log, &str)] = &[
    (
        Log(
            2,
            TAKES_ALL,
            &[Call(32_754, b"", None), Call(0, NINE, None)],
            32_761,
            &[],
        ),
        "32761 32784 next | 65536 02000000000000040009E306928331323334353637383900 \
        0+32754 32761+9 None",
    ),
    (
        Log(2, TAKES_ALL, &[Call(32_755, b"", None)], 32_760, &[]),
        "32768 next | 32768 0707000000000000 0+32755 None",
    ),
    (
        Log(
            1,
            TAKES_ALL,
            &[Call(32_761, b"", None), Call(0, b"", None)],
            32_765,
            &[Call(0, b"", None)],
        ),
        "32768 SegmentFull next 7 | 32768 070707 0+32761 None",
    ),
];

#[test]
fn writer_pads(rt: HostRuntime) {
    check(&rt, PADDED);
}

// Two records are written whole or not at all; the second may end the segment.
const TWO: &[(Log, &str)] = &[(
    Log(
        1,
        TAKES_ALL,
        &[
            Call(32_754, b"", Some(b"1")),
            Call(0, NINE, Some(b"")),
            Call(32_731, b"", Some(b"")),
            Call(32_731, b"", None),
        ],
        0,
        &[],
    ),
    "SegmentFull 23 32768 SegmentFull next | 32768 \
        010009E30692833132333435363738390100000000000001 0+9 16+0 23+32731 32761+0 None",
)];

#[test]
fn two_records(rt: HostRuntime) {
    check(&rt, TWO);
}

// A first part, a middle part and a last one.
const LONG: &[(Log, &str)] = &[(
    Log(4, TAKES_ALL, &[Call(70_000, b"", None)], 65_534, &[]),
    "70021 next | 98304 070704117E8EB3ADAC070707070707070707070707070707 \
        0+70000 None",
)];

#[test]
fn record_over_three_pages(rt: HostRuntime) {
    check(&rt, LONG);
}

// A device that takes a byte at a time takes all the same.
const SLOW: &[(Log, &str)] = &[(
    Log(
        1,
        (1, usize::MAX, Full::TakesNone),
        &[Call(0, NINE, Some(b""))],
        0,
        &[Call(0, NINE, None)],
    ),
    "23 next 16 | 32768 010009E30692833132333435363738390100000000000000 0+9 16+0 None",
)];

#[test]
fn slow_device(rt: HostRuntime) {
    check(&rt, SLOW);
}

const TWICE: &[Call] = &[Call(0, NINE, Some(b"")), Call(0, b"", None)];

// What a device took before it was full, in small steps, and once it took or gave nothing: no later call asks it again, though it
// would take more.
const FAILED: &[(Log, &str)] = &[
    (
        Log(1, (9, 20, Full::TakesNone), TWICE, 0, TWICE),
        "Write Failed Failed Failed Failed | 20 010009E306928331323334353637383901000000 0+9 Some((16, Torn))",
    ),
    (
        Log(1, (9, 16, Full::Fails(ErrorKind::Other)), TWICE, 0, &[]),
        "Write Failed Failed | 16 010009E3069283313233343536373839 0+9 None",
    ),
    (
        Log(
            1,
            (9, 3, Full::Fails(ErrorKind::Interrupted)),
            TWICE,
            0,
            &[],
        ),
        "Write Failed Failed | 3 010009 Some((0, Torn))",
    ),
    (
        Log(1, (9, 0, Full::TakesNone), TWICE, 0, &[]),
        "Write Failed Failed | 0  None",
    ),
    // the zeros that end the page are refused
    (
        Log(
            1,
            (usize::MAX, 25, Full::TakesNone),
            &[Call(0, NINE, None)],
            16,
            TWICE,
        ),
        "16 Write Failed Failed | 25 000000000000000000 0+9 None",
    ),
];

#[test]
fn device_fails(rt: HostRuntime) {
    check(&rt, FAILED);
}
