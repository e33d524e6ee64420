//! The header and the table of contents.

ghost use Rattle.std.specs.Prelude.{◌≡◌, ◌≤◌, ◌-◌, length, drop, Some, true, IfOk, IsOk};
ghost use Rattle.index_text.specs.Reading.{head_of, toc_of, places_of as places_in, are_places};

use crate::fault::ReadFault;
use crate::toc::Toc;
use hw_bytes::{be32_at, be64_at, is_summed};

// Checks the magic number and the version.
#[tactic(auto, unfolding(crate::specs::Reading::head_of))]
pub(crate) fn head(bytes: &[u8]) -> Result<(), ReadFault>
    ensures { result ≡ head_of bytes.now }
{
    match be32_at(bytes) {
        None => return Err(ReadFault::BadMagic),
        Some(magic) => {
            if magic != 0xBAAA_D700 {
                return Err(ReadFault::BadMagic);
            }
        }
    }
    let (_, rest) = bytes.split_at(4);
    match rest.first() {
        Some(2) => Ok(()),
        _ => Err(ReadFault::BadVersion),
    }
}

// Reads the six offsets of the table of contents.
#[tactic(auto, unfolding(crate::specs::Reading::places_of))]
fn places(bytes: &[u8]) -> Option<Toc>
    requires { 48 ≤ length bytes.now }
    ensures { result ≡ Some (places_in bytes.now) }
{
    let (_, second) = bytes.split_at(8);
    let (_, third) = bytes.split_at(16);
    let (_, fourth) = bytes.split_at(24);
    let (_, fifth) = bytes.split_at(32);
    let (_, sixth) = bytes.split_at(40);
    Some(Toc {
        symbols: be64_at(bytes)?,
        series: be64_at(second)?,
        label_indices: be64_at(third)?,
        label_table: be64_at(fourth)?,
        postings: be64_at(fifth)?,
        postings_table: be64_at(sixth)?,
    })
}

// Returns whether the offsets are in the order of the sections, up to `stop`, where the table of contents begins.
fn is_ordered(toc: Toc, stop: u64) -> bool
    ensures { result ≡ are_places toc stop }
{
    toc.symbols == 5
        && toc.symbols <= toc.series
        && toc.series <= toc.label_indices
        && toc.label_indices <= toc.postings
        && toc.postings <= toc.label_table
        && toc.label_table <= toc.postings_table
        && toc.postings_table <= stop
}

// Reads the table of contents at the end of an index, and checks it.
#[tactic(auto, unfolding(crate::specs::Reading::toc_of))]
pub(crate) fn toc(bytes: &[u8]) -> Result<Toc, ReadFault>
    ensures found { result ≡ toc_of bytes.now }
    ensures long { IsOk result → 57 ≤ length bytes.now }
    ensures ordered { IfOk result (λ t. are_places t (length bytes.now - 52) ≡ true) }
{
    if bytes.len() < 57 {
        return Err(ReadFault::BadToc);
    }
    let stop = bytes.len() - 52;
    let (_, tail) = bytes.split_at(stop);
    if !is_summed(tail, 48) {
        return Err(ReadFault::BadToc);
    }
    let Some(found) = places(tail) else {
        return Err(ReadFault::BadToc);
    };
    if !is_ordered(found, stop as u64) {
        return Err(ReadFault::BadToc);
    }
    Ok(found)
}
