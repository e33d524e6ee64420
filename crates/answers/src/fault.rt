//! How a run can end: faults, their texts and exit statuses.

ghost use Rattle.std.specs.Prelude.{◌≡◌, ◌↔◌, ◌⊎◌, ℕ, List, None, Some};
ghost use Rattle.wal_log.specs.declared.plan.PlanFault.TheVariants as plan;
ghost use Rattle.wal_log.specs.declared.checkpoint.CheckpointFault.TheVariants as checkpoint;
ghost use Rattle.wal_log.specs.declared.input.InputFault.TheVariants as input;
ghost use Rattle.wal_log.specs.declared.reading.Damage.{Damage as LogDamage};
ghost use Rattle.index_text.specs.declared.fault.ReadFault.TheVariants as index;
ghost use Rattle.index_text.specs.declared.fault.ReadFault.{ReadFault as IndexFault};
ghost use Rattle.block_read.specs.declared.fault.BlockFault.TheVariants as block;
ghost use Rattle.head_replay.specs.declared.fault.ReplayFault.TheVariants as replay;
ghost use Rattle.new_files.specs.declared.fault.WriteFault.TheVariants as write;
ghost use Rattle.answers.specs.declared.output.PrintFault.TheVariants as print;
ghost use Rattle.new_files.specs.Faults.{NamesPath};
ghost use Rattle.answers.specs.declared.fault.Fault.TheVariants.{BadChunks, BadIndex, BadMeta, BadTombstones, BadUlid, Full, Gap, NoLog, NoPair, OutOfMemory, TooLarge, Workers};
ghost use Rattle.answers.specs.Damages.{gap_text};
ghost use Rattle.answers.specs.Faults.{TellsDamage, TellsNoDamage, TellsTaken, TellsUnread, TellsUnwritten, path_text};

use crate::damage::{DamageLine, FileNumber};
use crate::output::PrintFault;
use block_index::ReadFault;
use block_read::BlockFault;
use head_replay::ReplayFault;
use new_files::WriteFault;
use std::alloc::{AllocError, AllocFailed, Global};
use std::error::Error;
use std::fmt;
use std::process::ExitCode;
use store::{Reason, ShownPath, StoreFault};
use wal_log::{CheckpointFault, InputFault, InputRefused, PlanFault};

/// The program's exit status.
#[derive(Clone, Copy, Debug, PartialEq, Eq)]
pub enum Status {
    Done = 0,
    /// The log or the block is damaged. What a log holds before the damage was printed, unless a block was to be made of it.
    Damaged = 1,
    /// The arguments are wrong. Nothing was read.
    Usage = 2,
    /// Input or output failed, or the request cannot be met.
    Refused = 3,
    /// Memory ran out, or a thread could not start.
    Exhausted = 4,
}

impl From<Status> for ExitCode {
    fn from(status: Status) -> ExitCode {
        ExitCode::from(status as u8)
    }
}

/// Two files of a log, one after the other by their numbers, of which the later does not have the number after the earlier.
#[derive(Clone, Copy, Debug, PartialEq, Eq)]
pub struct NumberGap {
    /// Whether the files are checkpoints, and not segments.
    pub of_checkpoints: bool,
    pub number: u64,
    /// The number of the later file, which is `number` if two files have it.
    pub next: u64,
}

impl fmt::Display for NumberGap {
    ghost output = { λ gap. Some (gap_text gap.of_checkpoints gap.number gap.next) };

    fn fmt<W: fmt::Write>(&self, f: &mut fmt::Formatter<W>) -> fmt::Result {
        let NumberGap { number, next, .. } = *self;
        let kind = if self.of_checkpoints {
            "checkpoint"
        } else {
            "segment"
        };
        let (file, later) = (FileNumber(number), FileNumber(next));
        if number == next {
            write!(f, "{kind} {file} is there twice")
        } else {
            write!(f, "behind {kind} {file} comes {later}")
        }
    }
}

/// What is known beyond the text of a fault or of an answer, to be printed after it.
#[derive(Clone, Copy, Debug, PartialEq, Eq)]
pub enum Cause {
    /// The file system refused a call.
    Refused(Reason),
    /// The numbers of two files do not follow each other.
    Gap(NumberGap),
    /// A record of the log is compressed.
    Compressed,
    /// Parts of the log are lost.
    Lost,
    /// A checkpoint left out this many records, since their types are not read.
    LeftOut(u64),
}

impl fmt::Display for Cause {
    fn fmt<W: fmt::Write>(&self, f: &mut fmt::Formatter<W>) -> fmt::Result {
        match self {
            Cause::Refused(reason) => fmt::Display::fmt(reason, f),
            Cause::Gap(gap) => fmt::Display::fmt(gap, f),
            Cause::Compressed => f.write_str(
                "`-z` reads such a log, and `unpack` writes it anew without compression, if Snappy compressed it",
            ),
            Cause::Lost => f.write_str("`inspect` says what can be read of each file"),
            Cause::LeftOut(records) => write!(
                f,
                "records left out, since their types are not read: {records}; `--keep-skipped` copies them"
            ),
        }
    }
}

/// Why a command failed. Its `Display` is the text that is printed on standard error after the program's name.
#[derive(Drop)]
pub enum Fault {
    /// The option `--pair` does not spell a label as labels are printed.
    NoPair,
    /// The option `--ulid` does not spell a ULID.
    BadUlid,
    /// The log is damaged. What it holds before the damage was printed, unless a block was to be made of it.
    Damage(DamageLine),
    /// The log was read past damage, and this many parts of it are lost. What it holds besides was printed.
    Lost(u64),
    /// The index of a block is refused.
    BadIndex(ReadFault),
    /// The chunk files of a block do not fit its index.
    BadChunks,
    /// The tombstones of a block are refused.
    BadTombstones,
    /// meta.json of a block does not say what the block holds.
    BadMeta,
    /// The file at this path is not the meta.json of a block.
    NotMeta { path: String },
    /// The file or directory at this path cannot be read.
    CannotRead { path: String, reason: Reason },
    /// The file or directory at this path cannot be written.
    CannotWrite { path: String, reason: Reason },
    /// What is to be made at this path exists already.
    Exists { path: String },
    /// The hour does not lie within the times of 64 bits.
    Edge,
    /// No accepted sample is at or past the end of the hour.
    NotFull,
    /// No accepted sample is in the hour.
    NoSamples,
    /// The directory has no log to make a checkpoint of.
    NoLog,
    /// A number between two files of the log is missing, or two files have the same number: where that is, if it is known.
    Gap(Option<NumberGap>),
    /// The files of the log have 2^64 bytes or more in total, a block is larger than its index can say, or a record of a checkpoint is
    /// larger than a file of it may be.
    TooLarge,
    /// The log has more series, label texts or entries than a head may have.
    Full,
    /// A line of the file of rows is not a row. Lines are counted from 1.
    NotARow { line: u64 },
    /// A row has a label with an empty name.
    EmptyLabelName { line: u64 },
    /// A row has a label whose name is not greater than the one before it.
    LabelsNotAscending { line: u64 },
    /// A new label set would need a reference past 2^64 - 1.
    RefsSpent,
    /// The records of the accepted rows do not fit in one segment.
    SegmentFull,
    /// Standard output refused a text.
    CannotPrint,
    OutOfMemory,
    /// A thread could not start.
    Workers,
}

impl Fault {
    /// Returns the fault of a file or directory at `path` that cannot be read: `CannotRead`, or `OutOfMemory` if memory ran out, also
    /// while the path was copied.
    pub fn cannot_read(alloc: Global, path: &str, fault: StoreFault) -> Fault
        ensures told { TellsUnread path.now result }
        ensures memory { fault ≡ StoreFault.OutOfMemory → result ≡ OutOfMemory }
    {
        match (fault, String::from_str(alloc, path)) {
            (StoreFault::Refused(reason), Ok(path)) => Fault::CannotRead { path, reason },
            _ => Fault::OutOfMemory,
        }
    }

    /// Returns the fault of a file or directory at `path` that cannot be written: `CannotWrite`, or `OutOfMemory` if memory ran out, also
    /// while the path was copied.
    pub fn cannot_write(alloc: Global, path: &str, fault: StoreFault) -> Fault
        ensures told { TellsUnwritten path.now result }
        ensures memory { fault ≡ StoreFault.OutOfMemory → result ≡ OutOfMemory }
    {
        match (fault, String::from_str(alloc, path)) {
            (StoreFault::Refused(reason), Ok(path)) => Fault::CannotWrite { path, reason },
            _ => Fault::OutOfMemory,
        }
    }

    /// Returns the fault of a path at which something is to be made and that exists: `Exists`, or `OutOfMemory` if memory ran out while the
    /// path was copied.
    pub fn exists(alloc: Global, path: &str) -> Fault
        ensures { TellsTaken path.now result }
    {
        match String::from_str(alloc, path) {
            Ok(path) => Fault::Exists { path },
            Err(_) => Fault::OutOfMemory,
        }
    }

    // Returns the fixed part of the fault's text, if it names no path.
    fn text(&self) -> &'static str {
        match self {
            Fault::NoPair => "pair must be NAME=VALUE",
            Fault::BadUlid => "ulid must be 26 Crockford characters",
            // the line, and a text with a path, are written whole
            Fault::Damage(_)
            | Fault::Lost(_)
            | Fault::NotMeta { .. }
            | Fault::CannotRead { .. }
            | Fault::CannotWrite { .. }
            | Fault::Exists { .. } => "",
            Fault::BadIndex(_) => "bad index",
            Fault::BadChunks => "bad chunks",
            Fault::BadTombstones => "bad tombstones",
            Fault::BadMeta => "bad meta",
            Fault::Edge => "hour at the edge of time",
            Fault::NotFull => "hour not full",
            Fault::NoSamples => "no samples in hour",
            Fault::NoLog => "no log to keep",
            Fault::Gap(_) => "gap in segment numbers",
            Fault::TooLarge => "too large",
            Fault::Full => "too many series",
            Fault::NotARow { .. } => "not a row",
            Fault::EmptyLabelName { .. } => "empty label name",
            Fault::LabelsNotAscending { .. } => "label names not ascending",
            Fault::RefsSpent => "references spent",
            Fault::SegmentFull => "rows do not fit one segment",
            Fault::CannotPrint => "cannot write standard output",
            Fault::OutOfMemory => "out of memory",
            Fault::Workers => "a thread could not start",
        }
    }

    /// Returns what is known of the fault beyond its text: the reason of a refusal, the numbers of a gap, or that a record is compressed.
    pub fn cause(&self) -> Option<Cause> {
        match self {
            Fault::CannotRead { reason, .. } | Fault::CannotWrite { reason, .. } => {
                Some(Cause::Refused(*reason))
            }
            Fault::Gap(gap) => Some(Cause::Gap((*gap)?)),
            Fault::Damage(line) => line.cause(),
            Fault::Lost(_) => Some(Cause::Lost),
            _ => None,
        }
    }

    /// Returns the exit status: `Refused` for every fault that no clause names.
    pub fn status(&self) -> Status
        ensures usage { (result ≡ Status.Usage) ↔ ((self.now ≡ NoPair) ⊎ (self.now ≡ BadUlid)) }
        ensures damaged { (result ≡ Status.Damaged) ↔ TellsDamage self.now }
        ensures exhausted { (result ≡ Status.Exhausted) ↔ ((self.now ≡ OutOfMemory) ⊎ (self.now ≡ Workers)) }
        ensures fails { result ≡ Status.Done → ⊥ }
    {
        match self {
            Fault::NoPair | Fault::BadUlid => Status::Usage,
            Fault::Damage(_)
            | Fault::Lost(_)
            | Fault::BadIndex(_)
            | Fault::BadChunks
            | Fault::BadTombstones
            | Fault::BadMeta
            | Fault::NotMeta { .. } => Status::Damaged,
            Fault::CannotRead { .. }
            | Fault::CannotWrite { .. }
            | Fault::Exists { .. }
            | Fault::NoLog
            | Fault::Gap(_)
            | Fault::TooLarge
            | Fault::Full
            | Fault::NotARow { .. }
            | Fault::EmptyLabelName { .. }
            | Fault::LabelsNotAscending { .. }
            | Fault::RefsSpent
            | Fault::SegmentFull
            | Fault::CannotPrint
            | Fault::Edge
            | Fault::NotFull
            | Fault::NoSamples => Status::Refused,
            Fault::OutOfMemory | Fault::Workers => Status::Exhausted,
        }
    }
}

impl fmt::Display for Fault {
    ghost output = { path_text };

    fn fmt<W: fmt::Write>(&self, f: &mut fmt::Formatter<W>) -> fmt::Result {
        let text = self.text();
        match self {
            Fault::Damage(line) => write!(f, "{line}"),
            Fault::Lost(parts) => write!(f, "lost parts of the log: {parts}"),
            Fault::BadIndex(fault) => write!(f, "{text} {fault}"),
            Fault::NotMeta { path } => { write!(f, "{}: not a block's meta.json", ShownPath(path)) }
            Fault::CannotRead { path, .. } => write!(f, "cannot read {}", ShownPath(path)),
            Fault::CannotWrite { path, .. } => write!(f, "cannot write {}", ShownPath(path)),
            Fault::Exists { path } => {
                write!(f, "cannot write {}: it exists already", ShownPath(path))
            }
            Fault::NotARow { line }
            | Fault::EmptyLabelName { line }
            | Fault::LabelsNotAscending { line } => write!(f, "line {line}: {text}"),
            _ => f.write_str(text),
        }
    }
}

// Prints what `Display` prints: a derived impl is dear to prove.
impl fmt::Debug for Fault {
    fn fmt<W: fmt::Write>(&self, f: &mut fmt::Formatter<W>) -> fmt::Result {
        fmt::Display::fmt(self, f)
    }
}

impl Error for Fault {}

impl From<PlanFault> for Fault {
    ghost from_gives = { λ e f. ((f ≡ OutOfMemory) ↔ (e ≡ plan.Memory)) × ((f ≡ Gap None) ↔ (e ≡ plan.Gap)) × TellsNoDamage f };

    fn from(fault: PlanFault) -> Fault {
        match fault {
            PlanFault::Gap => Fault::Gap(None),
            PlanFault::Memory => Fault::OutOfMemory,
        }
    }
}

impl From<ReplayFault> for Fault {
    ghost from_gives = { λ e f. ((f ≡ Full) ↔ (e ≡ replay.Full)) × ((f ≡ OutOfMemory) ↔ (e ≡ replay.Memory)) × (e ≡ replay.Workers → f ≡ Workers) × TellsNoDamage f };

    fn from(fault: ReplayFault) -> Fault {
        match fault {
            ReplayFault::Full => Fault::Full,
            ReplayFault::Memory => Fault::OutOfMemory,
            // the first two do not occur: the command line takes 1 to 64 workers
            ReplayFault::NoWorkers | ReplayFault::TooManyWorkers | ReplayFault::Workers => {
                Fault::Workers
            }
        }
    }
}

impl From<InputRefused> for Fault {
    ghost from_gives = { λ e f. ((f ≡ TooLarge) ↔ (e.fault ≡ input.TooLong)) × (e.fault ≡ input.Gap → f ≡ Gap None) × TellsNoDamage f };

    fn from(refused: InputRefused) -> Fault {
        match refused.fault {
            InputFault::TooLong => Fault::TooLarge,
            // a plan has no segment at or below its checkpoint
            InputFault::BelowCheckpoint | InputFault::Gap => Fault::Gap(None),
        }
    }
}

impl From<CheckpointFault> for Fault {
    ghost from_gives = { λ e f. ((f ≡ OutOfMemory) ↔ (e ≡ checkpoint.Memory)) × ((f ≡ NoLog) ↔ (e ≡ checkpoint.NoLog)) × ((f ≡ TooLarge) ↔ (e ≡ checkpoint.TooLarge))
        × ((damage : LogDamage) → e ≡ checkpoint.Damaged damage → TellsDamage f) };

    fn from(fault: CheckpointFault) -> Fault {
        match fault {
            CheckpointFault::NoLog => Fault::NoLog,
            CheckpointFault::Damaged(damage) => Fault::Damage(DamageLine(damage)),
            CheckpointFault::TooLarge => Fault::TooLarge,
            CheckpointFault::Memory => Fault::OutOfMemory,
        }
    }
}

impl From<WriteFault> for Fault {
    ghost from_gives = { λ e f. ((path : List ℕ) → NamesPath path e → TellsUnwritten path f) × ((f ≡ OutOfMemory) ↔ (e ≡ write.OutOfMemory)) × TellsNoDamage f };

    fn from(fault: WriteFault) -> Fault {
        match fault {
            WriteFault::CannotWrite { path, reason } => Fault::CannotWrite { path, reason },
            WriteFault::OutOfMemory => Fault::OutOfMemory,
        }
    }
}

impl From<BlockFault> for Fault {
    ghost from_gives = { λ e f. ((f ≡ OutOfMemory) ↔ ((e ≡ block.Memory) ⊎ (e ≡ block.Index index.Memory)))
        × ((f ≡ BadChunks) ↔ (e ≡ block.BadChunks)) × ((f ≡ BadTombstones) ↔ (e ≡ block.BadTombstones)) × ((f ≡ BadMeta) ↔ (e ≡ block.BadMeta))
        × ((fault : IndexFault) → e ≡ block.Index fault → (f ≡ OutOfMemory) ⊎ (f ≡ BadIndex fault)) };

    fn from(fault: BlockFault) -> Fault {
        match fault {
            BlockFault::Index(ReadFault::Memory) | BlockFault::Memory => Fault::OutOfMemory,
            BlockFault::Index(fault) => Fault::BadIndex(fault),
            BlockFault::BadChunks => Fault::BadChunks,
            BlockFault::BadTombstones => Fault::BadTombstones,
            BlockFault::BadMeta => Fault::BadMeta,
        }
    }
}

impl From<PrintFault> for Fault {
    ghost from_gives = { λ e f. ((f ≡ OutOfMemory) ↔ (e ≡ print.Memory)) × TellsNoDamage f };

    fn from(fault: PrintFault) -> Fault {
        match fault {
            PrintFault::Refused => Fault::CannotPrint,
            PrintFault::Memory => Fault::OutOfMemory,
        }
    }
}

impl From<AllocError> for Fault {
    ghost from_gives = { λ _ f. f ≡ OutOfMemory };

    fn from(_error: AllocError) -> Fault {
        Fault::OutOfMemory
    }
}

impl<T: Drop> From<AllocFailed<T>> for Fault {
    ghost from_gives = { λ _ f. f ≡ OutOfMemory };

    fn from(_error: AllocFailed<T>) -> Fault {
        Fault::OutOfMemory
    }
}
