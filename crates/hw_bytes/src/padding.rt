//! Zeros that align an element.

ghost use Rattle.std.specs.Prelude.{◌≡◌, ◌<◌, ◌++◌, length, replicate, OnOk};
ghost use Rattle.hw_bytes.specs.Padding.{padding};

use std::alloc::AllocError;

// Appends zeros.
fn put_zeros(bytes: &mut Vec<u8>, count: usize) -> Result<(), AllocError>
    ensures { OnOk result (bytes.new.items ≡ bytes.old.items ++ replicate count 0) }
{
    for _ in 0..count {
        bytes.push(0)?;
    }
    Ok(())
}

/// Appends zeros up to the next multiple of `align` bytes; none if the length is a multiple. If memory runs out, some zeros may have been
/// appended.
pub fn put_padding(bytes: &mut Vec<u8>, align: usize) -> Result<(), AllocError>
    requires { 0 < align }
    ensures { OnOk result (bytes.new.items ≡ bytes.old.items ++ replicate (padding align (length bytes.old.items)) 0) }
{
    let count = (align - bytes.len() % align) % align;
    put_zeros(bytes, count)
}
