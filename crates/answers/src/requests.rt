//! Requests to the program.

use block_read::Encoding;
use head_replay::Options;

/// How the files of a log are read.
#[derive(Clone, Copy, Debug, PartialEq, Eq)]
pub enum LogForm {
    /// As they are: a compressed record is damage.
    Plain,
    /// As the records that they stand for, compressed or not, up to the first damage.
    Unpacked,
    /// As all records of them that can be read, compressed or not, also after damage.
    PastDamage,
}

/// A request that reads a log.
#[derive(Clone, Copy, Debug, PartialEq, Eq)]
pub enum Request<'a> {
    /// Count what the log in a directory holds.
    Replay {
        dir: &'a str,
        form: LogForm,
        options: Options,
    },
    /// List the records of the log in a directory.
    Records {
        dir: &'a str,
        form: LogForm,
    },
    /// List the series of the log in a directory: all, or those that have the label `pair`, which is spelled as labels are printed.
    Series {
        dir: &'a str,
        form: LogForm,
        pair: Option<&'a str>,
        options: Options,
    },
}

/// A request about blocks.
#[derive(Clone, Copy, Debug, PartialEq, Eq)]
pub enum BlockRequest<'a> {
    /// List the hours of the log in a directory that can be cut.
    Ranges {
        dir: &'a str,
        form: LogForm,
        options: Options,
    },
    /// Cut an hour of a log into a block.
    Cut(CutRequest<'a>),
    /// Print what the block in a folder holds.
    Block {
        path: &'a str,
    },
}

/// A request to cut an hour of the log in the directory `dir` into a block named `ulid`, in a folder of that name in the directory `out`.
#[derive(Clone, Copy, Debug, PartialEq, Eq)]
pub struct CutRequest<'a> {
    pub dir: &'a str,
    pub form: LogForm,
    pub hour: i64,
    pub ulid: &'a str,
    /// Whether the name was made for this block, and not given: then it is printed.
    pub is_made: bool,
    pub out: &'a str,
    /// The encoding of the block's chunks.
    pub encoding: Encoding,
    pub options: Options,
}

/// A request to write a block for each hour of the log in the directory `dir` that has a sample, each in a folder of its name in the directory
/// `out`, with chunks that a server opens.
#[derive(Clone, Copy, Debug, PartialEq, Eq)]
pub struct BlocksRequest<'a> {
    pub dir: &'a str,
    pub form: LogForm,
    pub out: &'a str,
    /// The name of the first block, a ULID. Those of the others follow it.
    pub ulid: &'a str,
    /// Whether the name was made for these blocks, and not given.
    pub is_made: bool,
    /// How many bytes of memory are to suffice, if that is given: the log is read once for each group of hours that they hold.
    pub memory: Option<u64>,
    pub options: Options,
}

/// A request to write blocks of all that can be read of the log in the directory `dir`, and to say what was read of each file and what is lost.
#[derive(Clone, Copy, Debug, PartialEq, Eq)]
pub struct RescueRequest<'a> {
    pub dir: &'a str,
    pub out: &'a str,
    /// The name of the first block, a ULID. Those of the others follow it.
    pub ulid: &'a str,
    /// Whether the name was made for these blocks, and not given.
    pub is_made: bool,
    /// The data directory whose blocks gave the least valid time, if it is reported.
    pub data: Option<&'a str>,
    /// Whether it is printed as one JSON document.
    pub json: bool,
    pub options: Options,
}

/// A request to run a store over the log in the directory `dir`: rows are appended while they come, and full hours are cut into blocks, each in a
/// folder of its name in the directory `out`, with chunks that a server opens.
#[derive(Clone, Copy, Debug, PartialEq, Eq)]
pub struct LiveRequest<'a> {
    pub dir: &'a str,
    pub out: &'a str,
    /// The paths of the inputs of rows, with a colon between them. Empty for standard input.
    pub rows: &'a str,
    /// Whether the values of the rows are floating point numbers, whose bits are appended.
    pub floats: bool,
    /// After how many milliseconds the log is synced again. 0 if it is synced after each batch of rows.
    pub sync: u64,
    /// How many milliseconds past the end of an hour a sample is accepted before the hour is cut.
    pub after: u64,
    pub options: Options,
}

/// A request to append the rows of a file to the log in a directory.
#[derive(Clone, Copy, Debug, PartialEq, Eq)]
pub struct AppendRequest<'a> {
    pub dir: &'a str,
    /// The path of the file of rows.
    pub rows: &'a str,
    /// Whether the values of the rows are floating point numbers, whose bits are appended.
    pub floats: bool,
    pub options: Options,
}

/// A request to make a checkpoint of the log in the directory `dir`, with the least valid time `min_valid`.
#[derive(Clone, Copy, Debug, PartialEq, Eq)]
pub struct CheckpointRequest<'a> {
    pub dir: &'a str,
    pub form: LogForm,
    pub min_valid: i64,
    /// Whether records of types that are not read are copied, and not left out.
    pub keep_skipped: bool,
}

/// A request to print what is in the log in a directory, file by file.
#[derive(Clone, Copy, Debug, PartialEq, Eq)]
pub struct InspectRequest<'a> {
    pub dir: &'a str,
    /// Whether it is printed as one JSON document.
    pub json: bool,
    /// The least valid time, in milliseconds: samples before it are not looked at for references that nothing binds.
    pub min_valid: i64,
}

/// A request to print what makes the log in a directory large.
#[derive(Clone, Copy, Debug, PartialEq, Eq)]
pub struct AnalyzeRequest<'a> {
    pub dir: &'a str,
    pub form: LogForm,
    /// How many lines each list has at most.
    pub most: usize,
    /// Whether each line has a bar that shows its share.
    pub bars: bool,
    pub options: Options,
}

/// A request to print the samples of the log in a directory.
#[derive(Clone, Copy, Debug, PartialEq, Eq)]
pub struct DumpRequest<'a> {
    pub dir: &'a str,
    pub form: LogForm,
    /// Only the series with this label, which is spelled as labels are printed.
    pub pair: Option<&'a str>,
    /// The least time, in milliseconds.
    pub from: i64,
    /// The greatest time, in milliseconds.
    pub to: i64,
    /// Whether values are printed as the floating point numbers that their bits are.
    pub floats: bool,
    /// Whether samples that deletions hide are printed too.
    pub hidden: bool,
    pub options: Options,
}

/// A request to write the log in the directory `dir` into a new directory `out`, with its compressed records unpacked.
#[derive(Clone, Copy, Debug, PartialEq, Eq)]
pub struct UnpackRequest<'a> {
    pub dir: &'a str,
    pub out: &'a str,
    /// Whether the records before the first damage are written, if the log is damaged.
    pub through_damage: bool,
    /// Whether all that can be read is written, also what is after damage.
    pub past_damage: bool,
}
