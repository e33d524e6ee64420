//! Tests of the crates that read and write a log's files and a block's, by their public calls.
#![tactic(auto)]

#[cfg(test)]
mod blocks;
#[cfg(test)]
mod bytes;
#[cfg(test)]
mod cases;
#[cfg(test)]
mod changes;
#[cfg(test)]
mod encoders;
#[cfg(test)]
mod files;
#[cfg(test)]
mod html;
#[cfg(test)]
mod indices;
#[cfg(test)]
mod joiners;
#[cfg(test)]
mod labels;
#[cfg(test)]
mod logs;
#[cfg(test)]
mod pages;
#[cfg(test)]
mod parts;
#[cfg(test)]
mod plans;
#[cfg(test)]
mod records;
#[cfg(test)]
mod runs;
#[cfg(test)]
mod segments;
#[cfg(test)]
mod snappy;
#[cfg(test)]
mod texts;
#[cfg(test)]
mod unpacked;
#[cfg(test)]
mod xor;
