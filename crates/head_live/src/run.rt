//! The type parameter of a shared head, its appenders and their tokens.

use std::marker::Brand;
use std::sync::ledger::Ledger;

/// A run of a shared head: the ledger of its tokens, and the moment of the live head when it began. The trait has no methods. Generic
/// functions are proved for every run, and callers use `Brand`.
pub trait HeadRun: Ledger {
    ghost use Rattle.head_live.specs.Moments.{Moment};

    ghost opening: { Moment };
}

impl HeadRun for Brand {
    ghost use Rattle.head_live.specs.Moments.{no_moment};

    ghost opening = { no_moment };
}
