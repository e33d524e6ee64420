//! The least valid time of what is asked for.

ghost use Rattle.std.specs.Prelude.{◌≡◌};
ghost use Rattle.command_line.specs.Least.{from_least, least_blocks, least_log, least_options};

use crate::asked::Asked;
use answers::{
    AnalyzeRequest, AppendRequest, BlockRequest, BlocksRequest, CheckpointRequest, CutRequest,
    DumpRequest, InspectRequest, LiveRequest, Request, RescueRequest,
};
use head_replay::Options;

// Returns the options with this least valid time.
fn options_from(options: Options, min_valid: i64) -> Options
    ensures { result ≡ least_options min_valid options }
{
    Options {
        min_valid,
        ..options
    }
}

// Returns the request with this least valid time. One that replays nothing is returned unchanged.
fn log_from(request: Request<'_>, min_valid: i64) -> Request<'_>
    ensures { result ≡ least_log min_valid request.entry }
{
    match request {
        Request::Replay { dir, form, options } => Request::Replay {
            dir,
            form,
            options: options_from(options, min_valid),
        },
        Request::Series {
            dir,
            form,
            pair,
            options,
        } => Request::Series {
            dir,
            form,
            pair,
            options: options_from(options, min_valid),
        },
        Request::Records { .. } => request,
    }
}

// Returns the request with this least valid time. One that replays nothing is returned unchanged.
fn blocks_from(request: BlockRequest<'_>, min_valid: i64) -> BlockRequest<'_>
    ensures { result ≡ least_blocks min_valid request.entry }
{
    match request {
        BlockRequest::Ranges { dir, form, options } => BlockRequest::Ranges {
            dir,
            form,
            options: options_from(options, min_valid),
        },
        BlockRequest::Cut(request) => BlockRequest::Cut(CutRequest {
            options: options_from(request.options, min_valid),
            ..request
        }),
        BlockRequest::Block { .. } => request,
    }
}

impl<'a> Asked<'a> {
    /// Returns the same with this least valid time, in milliseconds. What has none is returned unchanged.
    pub fn from_least(self, min_valid: i64) -> Asked<'a>
        ensures { result ≡ from_least min_valid self.entry }
    {
        match self {
            Asked::OfLog(request) => Asked::OfLog(log_from(request, min_valid)),
            Asked::OfBlocks(request) => Asked::OfBlocks(blocks_from(request, min_valid)),
            Asked::Analyze(request) => Asked::Analyze(AnalyzeRequest {
                options: options_from(request.options, min_valid),
                ..request
            }),
            Asked::Dump(request) => Asked::Dump(DumpRequest {
                options: options_from(request.options, min_valid),
                ..request
            }),
            Asked::Blocks(request) => Asked::Blocks(BlocksRequest {
                options: options_from(request.options, min_valid),
                ..request
            }),
            Asked::Rescue(request) => Asked::Rescue(RescueRequest {
                options: options_from(request.options, min_valid),
                ..request
            }),
            Asked::Append(request) => Asked::Append(AppendRequest {
                options: options_from(request.options, min_valid),
                ..request
            }),
            Asked::Live(request) => Asked::Live(LiveRequest {
                options: options_from(request.options, min_valid),
                ..request
            }),
            Asked::Checkpoint(request) => Asked::Checkpoint(CheckpointRequest {
                min_valid,
                ..request
            }),
            Asked::Inspect(request) => Asked::Inspect(InspectRequest {
                min_valid,
                ..request
            }),
            Asked::Unpack(_) => self,
        }
    }
}
