//! What a running store needs besides: its own stores over the same files, and its inputs.

use answers::Fault;
use live_command::RowInput;
use std::alloc::Global;
use std::fs::File;
use std::io;
use std::io::{Read, StdinLock};
use store::StoreFault;

/// Where rows come from.
#[derive(Drop)]
pub(crate) enum RowSource {
    Standard(StdinLock<'static>),
    File(File),
}

impl Read for RowSource {
    fn read(&mut self, bytes: &mut [u8]) -> io::Result<usize> {
        match self {
            RowSource::Standard(input) => input.read(bytes),
            RowSource::File(file) => file.read(bytes),
        }
    }
}

/// Two stores over the same files, one for the log and one for the blocks, and the host, which opens inputs.
#[derive(Drop)]
pub(crate) struct Spare<S> {
    pub(crate) log: S,
    pub(crate) blocks: S,
    pub(crate) host: HostRuntime,
}

// Opens the input at a path, or standard input if the path is empty.
fn open_input(host: HostRuntime, alloc: Global, path: &str) -> Result<RowInput<RowSource>, Fault> {
    if path.is_empty() {
        return Ok(RowInput {
            name: String::from_str(alloc, "standard input")?,
            source: RowSource::Standard(host.reader()),
        });
    }
    match File::open(&host, path) {
        Ok(file) => Ok(RowInput {
            name: String::from_str(alloc, path)?,
            source: RowSource::File(file),
        }),
        Err(error) => Err(Fault::cannot_read(alloc, path, StoreFault::from(error))),
    }
}

/// Opens the inputs of these paths, which have a colon between them.
pub(crate) fn open_inputs(
    host: HostRuntime,
    alloc: Global,
    paths: &str,
) -> Result<Vec<RowInput<RowSource>>, Fault> {
    let mut inputs = Vec::new(alloc);
    for path in paths.split(':') {
        inputs.push(open_input(host, alloc, path)?)?;
    }
    Ok(inputs)
}
