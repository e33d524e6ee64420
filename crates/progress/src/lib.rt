//! How far a replay is, and when a terminal shows it. Only [`Meter`] writes to a terminal.
#![tactic(auto)]

mod extent;
mod gate;
mod laws;
mod line;
mod meter;
mod pacer;

pub use extent::Extent;
pub use gate::Progress;
pub use laws::progress_lines;
pub use meter::Meter;
