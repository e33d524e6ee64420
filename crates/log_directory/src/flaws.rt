//! What is wrong with the files of a log's directory beyond what is wrong with the log that was read of them.

ghost use Rattle.std.specs.Prelude.{◌≡◌, IfOk, length};
ghost use Rattle.log_directory.specs.Sources.{damage_of as damage_value, flaw_of_damage as flaw_value, flaw_of_lost, kind_of as kind_value, lost_in};

use crate::source::FileRead;
use crate::unpacking::FileDamage;
use answers::{DamageLine, Flaw};
use std::alloc::AllocError;
use wal_log::{Damage, Place};
use wal_page::FaultKind;
use wal_unpack::UnpackFault;

// Returns the kind of damage that is reported of a file that is unpacked.
fn kind_of(fault: UnpackFault) -> FaultKind
    ensures { result ≡ kind_value fault }
{
    match fault {
        UnpackFault::InFile(own) => own,
        // a hole is no damage to whoever unpacks
        UnpackFault::Mixed
        | UnpackFault::BadBlock(_)
        | UnpackFault::BadRecord
        | UnpackFault::Hole => FaultKind::BadRecord,
    }
}

// Returns the damage of a file that is unpacked, at its place in that file.
fn damage_of(found: FileDamage) -> Damage
    ensures { result ≡ damage_value found }
{
    let place = Place {
        in_checkpoint: found.in_checkpoint,
        file: found.number,
        offset: found.damage.offset,
    };
    Damage {
        place,
        kind: kind_of(found.damage.fault),
    }
}

/// Returns what is wrong with a log that was unpacked up to this damage.
pub(crate) fn flaw_of_damage(damage: Option<FileDamage>) -> Option<Flaw>
    ensures { result ≡ flaw_value damage }
{
    match damage {
        Some(damage) => Some(Flaw::Damage(damage_of(damage))),
        None => None,
    }
}

// Returns how many parts of a file are lost.
fn lost_of_file(file: &FileRead) -> u64
    ensures { result ≡ length file.now.lost.items }
{
    file.lost.len() as u64
}

/// Returns how many parts of files are lost.
pub fn lost_count(files: &[FileRead]) -> Result<u64, AllocError>
    ensures { IfOk result (λ count. count ≡ length (lost_in files.now)) }
{
    let mut count: u64 = 0;
    for file in files {
        let lost = lost_of_file(file);
        count = count.checked_add(lost).ok_or(AllocError)?;
    }
    Ok(count)
}

/// Returns what is wrong with a log of whose files this was read: how many parts are lost, if any is.
pub fn flaw_of_reads(files: &[FileRead]) -> Result<Option<Flaw>, AllocError>
    ensures { IfOk result (λ flaw. flaw ≡ flaw_of_lost (lost_in files.now)) }
{
    let count = lost_count(files)?;
    if count == 0 {
        return Ok(None);
    }
    Ok(Some(Flaw::Lost(count)))
}
