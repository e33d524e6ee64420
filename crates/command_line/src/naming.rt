//! The name of the block that is asked for, or of the first of the blocks.

ghost use Rattle.std.specs.Prelude.{◌≡◌};
ghost use Rattle.command_line.specs.Naming.{lacks_name, named};

use crate::asked::{Asked, CommandLine};
use answers::{BlockRequest, BlocksRequest, CutRequest, RescueRequest};

impl<'a> Asked<'a> {
    /// Returns whether a name is to be made for its block, or for the first of its blocks.
    pub fn lacks_name(&self) -> bool
        ensures { result ≡ lacks_name self.now }
    {
        match self {
            Asked::OfBlocks(BlockRequest::Cut(request)) => request.is_made,
            Asked::Blocks(request) => request.is_made,
            Asked::Rescue(request) => request.is_made,
            _ => false,
        }
    }

    /// Returns the same with this name for its block, or for the first of its blocks. What makes no block is returned unchanged.
    pub fn named(self, name: &'a str) -> Asked<'a>
        ensures { result ≡ named name.entry self.entry }
    {
        match self {
            Asked::OfBlocks(BlockRequest::Cut(request)) => {
                let request = CutRequest {
                    ulid: name,
                    ..request
                };
                Asked::OfBlocks(BlockRequest::Cut(request))
            }
            Asked::Blocks(request) => Asked::Blocks(BlocksRequest {
                ulid: name,
                ..request
            }),
            Asked::Rescue(request) => Asked::Rescue(RescueRequest {
                ulid: name,
                ..request
            }),
            other => other,
        }
    }
}
