//! Damage, as the program prints it.

ghost use Rattle.std.specs.Prelude.{◌≡◌, Some};
ghost use Rattle.answers.specs.Damages.{damage_text, file_number, kind_of_file};

use crate::fault::Cause;
use std::fmt;
use wal_log::{Damage, Place};
use wal_page::FaultKind;

/// Returns what kind of file a place is in: `checkpoint` or `segment`.
pub fn kind_of_file(place: Place) -> &'static str
    ensures { result.now ≡ kind_of_file place.in_checkpoint }
{
    if place.in_checkpoint {
        "checkpoint"
    } else {
        "segment"
    }
}

/// The number of a file of a log. Its `Display` is the number in decimal, with zeros before it up to eight digits.
#[derive(Clone, Copy, Debug, PartialEq, Eq)]
pub struct FileNumber(pub u64);

impl fmt::Display for FileNumber {
    ghost output = { λ number. Some (file_number number.0) };

    fn fmt<W: fmt::Write>(&self, f: &mut fmt::Formatter<W>) -> fmt::Result {
        let number = self.0;
        write!(f, "{number:08}")
    }
}

/// The line that reports damage: the file, the offset in it in bytes, and the kind.
#[derive(Clone, Copy, Debug, PartialEq, Eq)]
pub struct DamageLine(pub Damage);

impl DamageLine {
    /// Returns what is known of the damage beyond its line: that a record is compressed.
    pub fn cause(&self) -> Option<Cause> {
        match self.0.kind {
            FaultKind::Compressed => Some(Cause::Compressed),
            _ => None,
        }
    }
}

impl fmt::Display for DamageLine {
    ghost output = { λ line. Some (damage_text line.0) };

    fn fmt<W: fmt::Write>(&self, f: &mut fmt::Formatter<W>) -> fmt::Result {
        let Damage { place, kind } = self.0;
        let Place { file, offset, .. } = place;
        let (of, number, name) = (kind_of_file(place), kind.number(), kind.name());
        let file = FileNumber(file);
        write!(f, "damage {of} {file} offset {offset} kind {number} {name}")
    }
}

/// What is wrong with a log that was read.
#[derive(Clone, Copy, Debug, PartialEq, Eq)]
pub enum Flaw {
    /// It was read up to this damage.
    Damage(Damage),
    /// It was read past damage, and this many parts of it are lost.
    Lost(u64),
}
