//! Chunks of samples in Prometheus' XOR encoding: the bytes of a list of samples, and the samples of bytes. Nothing here reads or writes
//! a file.
#![tactic(auto)]

mod before;
mod chunk_reader;
mod chunk_writer;
mod decoding;
mod encoding;
mod facts;
mod fault;
mod laws;
mod reader;
mod sample;
mod writer;

pub use chunk_reader::{ChunkReader, count_before, decode, decode_exact, decode_in};
pub use chunk_writer::{ChunkWriter, encode, encode_in};
pub use fault::XorFault;
pub use laws::{near_numbers, one_xor_chunk, reads_back, server_chunks, short_chunk};
pub use sample::Sample;
