//! Appenders of a shared head at work, each in a thread of its own.

ghost use Rattle.std.specs.Prelude.{◌<◌, vec_len};
ghost use Rattle.std.specs.Thread.{IsSend, IsSync};

use head_live::{AppendFault, Appender, HeadRun, PrepareFault, Prepared, SharedHead, Verdict};
use std::alloc::{AllocError, Global};
use std::io::Write;
use std::sync::Wait;
use std::thread;
use std::thread::Threads;

/// Where appenders append.
pub trait Desk<K: HeadRun> {
    fn put<R: Wait>(
        &self,
        rt: &R,
        appender: &mut Appender<K>,
        rows: &Prepared,
    ) -> Result<Vec<Verdict>, AppendFault>;
}

impl<K: HeadRun, W: Write + Drop> Desk<K> for SharedHead<K, W> {
    fn put<R: Wait>(
        &self,
        rt: &R,
        appender: &mut Appender<K>,
        rows: &Prepared,
    ) -> Result<Vec<Verdict>, AppendFault> {
        appender.append(rt, self, rows)
    }
}

/// What appenders append, call by call.
pub trait Plan {
    fn appenders(&self) -> usize;

    fn calls(&self) -> usize;

    fn rows(&self, alloc: Global, appender: usize, call: usize) -> Result<Prepared, PrepareFault>;
}

/// An appender with its number, and why it was first refused, if it was.
#[derive(Drop)]
pub struct Writer<K: HeadRun> {
    pub number: usize,
    pub appender: Appender<K>,
    pub refused: Option<AppendFault>,
}

// Appends once more where memory was refused.
fn put<K: HeadRun, S: Desk<K>, R: Wait>(
    rt: &R,
    desk: &S,
    appender: &mut Appender<K>,
    rows: &Prepared,
) -> Option<AppendFault> {
    match desk.put(rt, appender, rows) {
        Ok(_) => None,
        Err(AppendFault::Memory) => desk.put(rt, appender, rows).err(),
        Err(fault) => Some(fault),
    }
}

// Prepares once more where memory was refused.
fn rows_of<P: Plan>(
    plan: &P,
    alloc: Global,
    appender: usize,
    call: usize,
) -> Result<Prepared, PrepareFault> {
    match plan.rows(alloc, appender, call) {
        Ok(rows) => Ok(rows),
        Err(PrepareFault::Memory) => plan.rows(alloc, appender, call),
        Err(fault) => Err(fault),
    }
}

impl<K: HeadRun> Writer<K> {
    fn append_all<S: Desk<K>, P: Plan, R: Wait>(
        &mut self,
        rt: &R,
        alloc: Global,
        desk: &S,
        plan: &P,
    ) {
        for call in 0..plan.calls() {
            let Ok(rows) = rows_of(plan, alloc, self.number, call) else {
                self.refused = Some(AppendFault::Memory);
                return;
            };
            let refused = put(rt, desk, &mut self.appender, &rows);
            self.refused = self.refused.or(refused);
        }
    }
}

// One after another.
fn append_each<K: HeadRun, S: Desk<K>, P: Plan, R: Wait>(
    rt: &R,
    alloc: Global,
    desk: &S,
    plan: &P,
    writers: &mut [Writer<K>],
) {
    for writer in writers {
        writer.append_all(rt, alloc, desk, plan);
    }
}

// Both halves.
fn put_together<K: HeadRun>(
    low: Result<Vec<Writer<K>>, AllocError>,
    high: Result<Vec<Writer<K>>, AllocError>,
) -> Result<Vec<Writer<K>>, AllocError> {
    let mut all = low?;
    let mut rest = high?;
    all.append(&mut rest)?;
    Ok(all)
}

/// All that the plan has for these, each in a thread of its own.
#[cycle(halving)]
pub fn append_at_once<
    K: HeadRun + Send + Sync,
    S: Desk<K> + Sync,
    P: Plan + Sync,
    R: Threads + Wait + Sync,
>(
    rt: &R,
    alloc: Global,
    desk: &S,
    plan: &P,
    mut writers: Vec<Writer<K>>,
) -> Result<Vec<Writer<K>>, AllocError> {
    if writers.len() <= 1 {
        append_each(rt, alloc, desk, plan, &mut writers);
        return Ok(writers);
    }
    let half = writers.len() / 2;
    let rest = writers.split_off(half)?;
    let (low, high) = thread::join(
        rt,
        move || -> Result<Vec<Writer<K>>, AllocError>
            requires { IsSync R.row × IsSync S.row × IsSync P.row × IsSend K.row × IsSync K.row × (0 < vec_len writers) }
        { append_at_once(rt, alloc, desk, plan, writers) },
        move || -> Result<Vec<Writer<K>>, AllocError>
            requires { IsSync R.row × IsSync S.row × IsSync P.row × IsSend K.row × IsSync K.row }
        { append_at_once(rt, alloc, desk, plan, rest) },
    );
    put_together(low, high)
}
