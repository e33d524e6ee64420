//! The live head: a head that takes new rows after replay.
//!
//! The labels of rows are checked first ([`Prepared`]). Then the rows are judged against the head, the records of the accepted ones are logged,
//! and only then applied, so that the head always has the content of its log ([`Live`]). Rows before the least valid time are expired: they are
//! neither logged nor applied. `Live::truncate` raises that time.
//!
//! A [`SharedHead`] is a live head behind a lock, to which appenders in threads add rows. When it is closed, what the appenders reported is compared
//! with the samples of the head past its opening: a run ended well if both are the same.
#![tactic(auto)]

mod agreeing;
mod appender;
mod closing;
mod fault;
mod held;
mod in_use;
mod judging;
mod known;
mod live;
mod logging;
mod placed;
mod placing;
mod prepared;
mod rows;
mod run;
mod set_key;
mod shared;
mod telling;
mod told;
mod verdict;

pub use appender::Appender;
pub use closing::{CloseFault, Closed};
pub use fault::{AgainFault, AppendFault, PrepareFault, TruncateFault};
pub use held::Held;
pub use live::Live;
pub use prepared::Prepared;
pub use rows::{AgainRow, RawRow};
pub use run::HeadRun;
pub use shared::{AppenderFault, CloseRefused, SharedHead};
pub use told::Told;
pub use verdict::Verdict;
