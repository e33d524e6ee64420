//! Requests to the program, and how a run can end: faults and damage, their texts and exit statuses.
#![tactic(auto)]

mod answer;
mod damage;
mod fault;
mod line;
mod number_lines;
mod output;
mod requests;
mod spelling;

pub use answer::Answer;
pub use block_read::Encoding;
pub use damage::{DamageLine, FileNumber, Flaw, kind_of_file};
pub use fault::{Cause, Fault, NumberGap, Status};
pub use line::LineFault;
pub use number_lines::push_numbers;
pub use output::{Output, PrintFault, print_long};
pub use requests::{
    AnalyzeRequest, AppendRequest, BlockRequest, BlocksRequest, CheckpointRequest, CutRequest,
    DumpRequest, InspectRequest, LiveRequest, LogForm, Request, RescueRequest, UnpackRequest,
};
pub use spelling::{Pair, pair_of, push_pair, push_spelled, read_pair};
