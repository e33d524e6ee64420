//! What `--help` says after a command's options: what it writes, an example, and its exit statuses.

pub(crate) const REPLAY: &str = "\
Writes nothing. Prints a count on each line. `accepted` are samples that are later than all earlier
ones of their series. `stale` are the others: out of order or duplicate timestamp (not a staleness
marker). `unknown` are samples whose series no earlier series record defines. The last line is
`damage none`, or the place and the kind of the first damage, or, with --past-damage, how many
parts of the log are lost.

Example:
  prom_head replay /var/lib/prometheus/metrics2/wal -z

Exit status:
  0  the log was read to its end
  1  the log is damaged: what is before the damage was counted
  2  the command line is wrong
  3  a file cannot be read or is missing, or the log has more series than fit (2^32 - 1)
  4  out of memory, or a thread could not start";

pub(crate) const RECORDS: &str = "\
Writes nothing. Prints a line for each record: its file, offset, kind, and number of entries. The
last line is `damage none`, or the place and the kind of the first damage, or, with --past-damage,
how many parts of the log are lost.

Example:
  prom_head records /var/lib/prometheus/metrics2/wal -z | tail -1

Exit status:
  0  the log was read to its end
  1  the log is damaged: the records before the damage were listed
  2  the command line is wrong
  3  a file cannot be read or is missing
  4  out of memory";

pub(crate) const INSPECT: &str = "\
Writes nothing. Reads each file by itself, compressed or not, also after a damaged one. Also
reports empty and zero-filled files, and segments that are missing after the checkpoint, which a
replay silently skips. A note says that something may be lost.

A log may have samples of which blocks have a copy and whose series records are gone. To get no
notes on these, name the server's data directory by --min-valid-of.

Example:
  prom_head inspect /var/lib/prometheus/metrics2/wal --min-valid-of /var/lib/prometheus/metrics2

Exit status:
  0  each file was read to its end, and there is no note
  1  there is a note: something may be lost, or no log is there
  2  the command line is wrong
  3  a file cannot be read
  4  out of memory";

pub(crate) const UNPACK: &str = "\
Writes the directory OUT, and nothing else: each file of the log under its own number, with the
same records, none of them compressed. OUT must not exist. Don't run it on a log that is being
written. After a crash OUT is whole or not there. An unfinished copy stays as OUT.tmp, and you may
remove it.

With --past-damage OUT is a sound log of all that can be read of a damaged one, also after damage.
A missing segment becomes an empty one. A line for each lost part reports where it is.

Examples:
  prom_head unpack /var/lib/prometheus/metrics2/wal --out wal
  prom_head unpack damaged/wal --out wal --past-damage

Exit status:
  0  the log is on the device
  1  the log is damaged: nothing was written, or, with --through-damage, what is before the damage,
     or, with --past-damage, all that can be read
  2  the command line is wrong
  3  a file cannot be read or written
  4  out of memory";

pub(crate) const SERIES: &str = "\
Writes nothing. Prints a line for each series: its number, how many samples it has, and its labels.

Example:
  prom_head series /var/lib/prometheus/metrics2/wal -z --pair job=prometheus

Exit status:
  0  the log was read to its end
  1  the log is damaged: the series before the damage were listed
  2  the command line is wrong
  3  a file cannot be read or is missing, or the log has more series than fit (2^32 - 1)
  4  out of memory, or a thread could not start";

pub(crate) const ANALYZE: &str = "\
Writes nothing. Ranks label names by their number of values, metrics by series and by samples, and
labels by series, the greatest first.

Example:
  prom_head analyze /var/lib/prometheus/metrics2/wal -z --most 20

Exit status:
  0  the log was read to its end
  1  the log is damaged: what is before the damage was counted
  2  the command line is wrong
  3  a file cannot be read or is missing, or the log has more series than fit (2^32 - 1)
  4  out of memory, or a thread could not start";

pub(crate) const DUMP: &str = "\
Writes nothing. Prints a line for each accepted sample that no deletion hides: the labels of its
series, a time in milliseconds, and a value. A value is printed as a whole number, the 64 bits that
the log holds. A server reads these bits as a floating point number: --floats prints that.

Example:
  prom_head dump /var/lib/prometheus/metrics2/wal -z --pair __name__=up --floats

Exit status:
  0  the log was read to its end
  1  the log is damaged: the samples before the damage were printed
  2  the command line is wrong
  3  a file cannot be read or is missing, or the log has more series than fit (2^32 - 1)
  4  out of memory, or a thread could not start";

pub(crate) const RANGES: &str = "\
Writes nothing. Prints a line for each hour: its number, its start, and its end in milliseconds.
An hour is listed if it has a sample, and if the log has a sample at its end or later.

Example:
  prom_head ranges /var/lib/prometheus/metrics2/wal -z

Exit status:
  0  the log was read to its end
  1  the log is damaged: the hours before the damage were listed
  2  the command line is wrong
  3  a file cannot be read or is missing, or the log has more series than fit (2^32 - 1)
  4  out of memory, or a thread could not start";

pub(crate) const CUT: &str = "\
Writes the folder OUT/U, and nothing else. OUT must exist. The log is not changed. After a crash
the block is whole or not there. An unfinished one stays as OUT/U.tmp, and you may remove it.

With --xor a server opens the block, and answers queries from it: OUT is then its data directory,
or you move the folder there. Without --xor only this program reads the chunks of the block.

Example:
  prom_head cut wal --hour 472222 --ulid 01ARZ3NDEKTSV4RRFFQ69G5FAV --out blocks
  prom_head cut wal --hour 472222 --xor --out /var/lib/prometheus/metrics2

Exit status:
  0  the block is on the device
  1  the log is damaged: nothing was written, or, with --past-damage, all that can be read
  2  the command line is wrong
  3  a file cannot be read or written, or the hour cannot be cut
  4  out of memory, or a thread could not start";

pub(crate) const BLOCKS: &str = "\
Writes a folder into OUT for each hour that has a sample, and nothing else. The last hour, which
may be unfinished, gets one too. OUT must exist. A server opens these blocks. A block that is
already in OUT, byte for byte, is reported as `there` and left. After an interrupted run, run it
again. After a crash each block is whole or not there. Unfinished folders end in .tmp, and you may
remove them.

The samples of all hours are in memory at once, if they fit in SIZE, which is half of what is free
unless --memory says it. Otherwise the log is counted, and then read once for each group of hours
that fits, at least one at a time. SIZE is a number of bytes: 600M, say, or 2G.

Examples:
  prom_head blocks wal --out blocks
  prom_head blocks wal --out blocks --memory 600M
  prom_head blocks /var/lib/prometheus/metrics2/wal -z --out blocks

Exit status:
  0  all blocks are on the device
  1  the log is damaged: nothing was written, or, with --past-damage, all that can be read
  2  the command line is wrong
  3  a file cannot be read or written
  4  out of memory, or a thread could not start";

pub(crate) const RESCUE: &str = "\
Reads all that can be read of the log, compressed or not, also after damage, and writes it into
OUT as blocks, as `blocks` does. Reports what was read of each file, and what is lost. The log and
its server's data are not changed. Samples that the server already has in blocks are left out: the
least valid time is taken from the blocks in the directory that DIR is in, unless an option gives
another.

Stop the server first. Then rescue, move the blocks into its data directory, move the log away, and
start the server.

Example:
  mkdir blocks
  prom_head rescue /var/lib/prometheus/metrics2/wal --out blocks

Exit status:
  0  all blocks are on the device, and nothing is lost
  1  all blocks are on the device, and parts of the log are lost
  2  the command line is wrong
  3  a file cannot be read or written
  4  out of memory, or a thread could not start";

pub(crate) const BLOCK: &str = "\
Writes nothing. Reads the whole block, and prints its name, its times, and how much it holds.

Example:
  prom_head block blocks/01ARZ3NDEKTSV4RRFFQ69G5FAV

Exit status:
  0  the block is sound
  1  a part of the block is refused
  2  the command line is wrong
  3  a file cannot be read
  4  out of memory";

pub(crate) const APPEND: &str = "\
Writes a new segment into DIR, one past the last. Run it while no server has the log open. A row is
a time in milliseconds, a value, and labels in the order of their names. With --floats a value is a
floating point number. Without it a value is a whole number, the 64 bits that the log gets: a
server reads 8 as 4e-323.

Prints a line for each row. `accepted` rows are in the log. `stale` rows are not: out of order or
duplicate timestamp (not a staleness marker). Nor are `expired` rows, which are before --min-valid.
With a status other than 0 no row is in the log, unless standard output could not be written, or a
file not removed.

Example:
  printf '1700000000000 1 __name__=up job=node\\n' > rows
  prom_head append wal --rows rows --floats

Exit status:
  0  the accepted rows are on the device
  1  the log is damaged: nothing was written
  2  the command line is wrong
  3  a file cannot be read or written, or a line is not a row
  4  out of memory, or a thread could not start";

pub(crate) const LIVE: &str = "\
Replays the log, and goes on in a new segment. Rows come from standard input, or from the files of
--rows, each read by a thread of its own, as `append` takes them. Rows that have come together are
appended at once, and answered when they are in the log: a line for each, as `append` prints it, or
why it is no row. A last line without a newline is no row. `accepted` rows outlast a crash of the
program; after a power loss those are there that were accepted before the last sync. Each full hour
becomes a block in OUT while rows go on coming, and is told by `block NAME`. Rows that are older than
the end of the last block in OUT are `expired`.

Ends when all inputs do, with the log synced. Removes no file. No server and no other run may have
the log open: a second `live` and `append` are refused. If a crash cut the last record, `live` says
that the log is damaged, and `unpack --through-damage` makes a copy without it.

Example:
  producer | prom_head live wal --out blocks --floats

Exit status:
  0  all rows were answered, and the log is synced
  1  the log is damaged: nothing was written
  2  the command line is wrong
  3  a file cannot be read or written, or a line was no row
  4  out of memory, or a thread could not start";

pub(crate) const CHECKPOINT: &str = "\
Writes the folder checkpoint.NUMBER into DIR, and removes nothing. Run it while no server has the
log open. The checkpoint has all series, and the samples and deletions that --min-valid does not
leave out. It has native histograms, exemplars and metadata only with --keep-skipped. An unfinished
one stays as checkpoint.NUMBER.tmp, and you may remove it.

Before a server starts on the log, make an empty segment after the checkpoint if there is none:
`inspect` reports it.

Example:
  prom_head checkpoint wal --min-valid 1700000000000

Exit status:
  0  the checkpoint is on the device
  1  the log is damaged: nothing was written, or, with --past-damage, all that can be read
  2  the command line is wrong
  3  a file cannot be read or written, or there is no log
  4  out of memory";

pub(crate) const PROGRAM: &str = "\
DIR is a server's directory `wal`, in its data directory, or a copy of it. A server compresses its
log by default: `inspect`, `rescue` and `unpack` read such a log, and the other commands need -z,
but for `append` and `live`, which refuse it. If a server does not start, see
`prom_head help rescue`. `prom_head help COMMAND` says what a command writes, with an example and
its exit statuses.";
