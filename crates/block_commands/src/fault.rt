//! Faults of `cut`.

ghost use Rattle.std.specs.Prelude.{◌≡◌, ◌↔◌};

use answers::Fault;
use block_cut::CutFault;

/// Converts the fault of a cut to the program's fault.
pub fn of_cut(fault: CutFault) -> Fault
    ensures edge { (result ≡ Fault.Edge) ↔ (fault ≡ CutFault.Edge) }
    ensures not_full { (result ≡ Fault.NotFull) ↔ (fault ≡ CutFault.NotFull) }
    ensures nothing { (result ≡ Fault.NoSamples) ↔ (fault ≡ CutFault.Nothing) }
    ensures too_large { (result ≡ Fault.TooLarge) ↔ (fault ≡ CutFault.TooLarge) }
    ensures memory { (result ≡ Fault.OutOfMemory) ↔ (fault ≡ CutFault.Memory) }
{
    match fault {
        CutFault::Edge => Fault::Edge,
        CutFault::NotFull => Fault::NotFull,
        CutFault::Nothing => Fault::NoSamples,
        CutFault::TooLarge => Fault::TooLarge,
        CutFault::Memory => Fault::OutOfMemory,
    }
}
