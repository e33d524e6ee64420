//! Label sets.

use crate::cases::{Case, check, shown};
use std::alloc::{AllocError, Global};
use wal_record::*;

// Letters stand for themselves.
fn push_letters(text: &mut String, bytes: &[u8]) -> Result<(), AllocError> {
    for byte in bytes {
        text.push(char::from(*byte))?;
    }
    Ok(())
}

// A label set, as ` a=1 b=`.
pub(crate) fn push_labels(text: &mut String, labels: &LabelSet) -> Result<(), AllocError> {
    for i in 0..labels.len() {
        let (name, value) = labels.pair(i);
        text.push(' ')?;
        push_letters(text, name)?;
        text.push('=')?;
        push_letters(text, value)?;
    }
    Ok(())
}

pub(crate) type Pairs = &'static [(&'static [u8], &'static [u8])];

// Pushes pairs, and notes each that is refused.
fn push_all(
    text: &mut String,
    set: &mut LabelSet,
    pairs: &[(&[u8], &[u8])],
) -> Result<(), AllocError> {
    for (name, value) in pairs {
        match set.push(name, value) {
            Ok(()) => {}
            Err(fault) => write!(text, "{fault:?} ")?,
        }
    }
    Ok(())
}

fn push_set(text: &mut String, set: &LabelSet) -> Result<(), AllocError> {
    write!(text, "{} {}", set.len(), set.is_empty())?;
    push_labels(text, set)
}

// What a set refuses of these pairs, and then the set: how many pairs it has, whether it has none, and which.
struct Pushed(Pairs);

impl Case for Pushed {
    fn text(&self, alloc: Global) -> Result<String, AllocError> {
        let mut text = String::new(alloc);
        let mut set = LabelSet::new(alloc);
        push_all(&mut text, &mut set, self.0)?;
        push_set(&mut text, &set)?;
        Ok(text)
    }
}

const PUSHED: &[(Pushed, &str)] = &[
    (Pushed(&[]), "0 true"),
    (Pushed(&[(b"", b"x")]), "EmptyName 0 true"),
    (
        Pushed(&[(b"a", b"1"), (b"a", b"2")]),
        "NotAscending 1 false a=1",
    ),
    (
        Pushed(&[
            (b"", b"x"),
            (b"a", b"1"),
            (b"a", b"2"),
            (b"b", b""),
            (b"", b"2"),
            (b"aa", b"2"),
        ]),
        "EmptyName NotAscending EmptyName NotAscending 2 false a=1 b=",
    ),
];

#[test]
fn refused_pairs(rt: HostRuntime) {
    check(&rt, PUSHED);
}

pub(crate) fn set_of(alloc: Global, pairs: &[(&[u8], &[u8])]) -> Result<LabelSet, LabelFault> {
    let mut set = LabelSet::new(alloc);
    for &(name, value) in pairs {
        set.push(name, value)?;
    }
    Ok(set)
}

// Two label sets: whether they are equal, and their order.
#[derive(Drop)]
struct Two(Pairs, Pairs);

fn compared(alloc: Global, one: &LabelSet, other: &LabelSet) -> Result<String, AllocError> {
    let equal = one == other && other == one;
    shown(alloc, (equal, one.compare(other), other.compare(one)))
}

impl Case for Two {
    fn text(&self, alloc: Global) -> Result<String, AllocError> {
        match (set_of(alloc, self.0), set_of(alloc, self.1)) {
            (Ok(one), Ok(other)) => compared(alloc, &one, &other),
            _ => Err(AllocError),
        }
    }
}

const LESS: &str = "(false, Less, Greater)";

const EQUAL: &str = "(true, Equal, Equal)";

const EQUALITY: &[(Two, &str)] = &[
    (Two(&[], &[]), EQUAL),
    (Two(&[], &[(b"a", b"1")]), LESS),
    (Two(&[(b"a", b"1")], &[(b"a", b"2")]), LESS),
    (Two(&[(b"a", b"1")], &[(b"a", b"1")]), EQUAL),
    (
        Two(&[(b"a", b"1"), (b"b", b"2")], &[(b"a", b"1"), (b"b", b"2")]),
        EQUAL,
    ),
];

#[test]
fn equality(rt: HostRuntime) {
    check(&rt, EQUALITY);
}

// Each set comes before all after it, and is equal to itself alone.
const ASCENDING: [Pairs; 14] = [
    &[],
    &[(b"a", b"")],
    &[(b"a", b"1")],
    &[(b"a", b"1"), (b"b", b"9")],
    &[(b"a", b"1"), (b"c", b"0")],
    &[(b"a", b"1"), (b"c", b"1")],
    &[(b"a", b"10")],
    &[(b"a", b"2")],
    &[(b"a", b"\x7F")],
    &[(b"a", b"\x80")],
    &[(b"aa", b"1")],
    &[(b"b", b"0")],
    &[(b"\x7F", b"1")],
    &[(b"\x80", b"0")],
];

#[test]
fn order(rt: HostRuntime) {
    for (i, one) in ASCENDING.iter().enumerate() {
        for (k, other) in ASCENDING.iter().enumerate() {
            if i <= k {
                let wanted = if i == k { EQUAL } else { LESS };
                check(&rt, &[(Two(*one, *other), wanted)]);
            }
        }
    }
}

// A copy, with a pair more, and the set that was copied.
struct Copying(Pairs);

fn copy_text(alloc: Global, set: &LabelSet) -> Result<String, AllocError> {
    let mut text = String::new(alloc);
    let mut copy = set.copy()?;
    push_set(&mut text, &copy)?;
    write!(text, " {} / ", copy == *set)?;
    push_all(&mut text, &mut copy, &[(b"c", b"3")])?;
    push_set(&mut text, &copy)?;
    text.push_str(" / ")?;
    push_set(&mut text, set)?;
    Ok(text)
}

impl Case for Copying {
    fn text(&self, alloc: Global) -> Result<String, AllocError> {
        match set_of(alloc, self.0) {
            Ok(set) => copy_text(alloc, &set),
            Err(_) => Err(AllocError),
        }
    }
}

const COPIES: &[(Copying, &str)] = &[
    (
        Copying(&[(b"a", b"1"), (b"b", b"")]),
        "2 false a=1 b= true / 3 false a=1 b= c=3 / 2 false a=1 b=",
    ),
    (Copying(&[]), "0 true true / 1 false c=3 / 0 true"),
];

#[test]
fn copies(rt: HostRuntime) {
    check(&rt, COPIES);
}
