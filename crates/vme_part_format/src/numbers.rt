//! Numbers, with their least byte first.

ghost use Rattle.std.specs.Prelude.{◌≡◌, ◌++◌, OnOk};
ghost use Rattle.std.specs.Int.{w64, to_le_bytes};

use std::alloc::AllocError;

/// Adds `number`, in 8 bytes.
pub(crate) fn put_number(out: &mut Vec<u8>, number: u64) -> Result<(), AllocError>
    ensures { OnOk result (out.new.items ≡ out.old.items ++ to_le_bytes w64 number) }
{
    out.extend_from_slice(&number.to_le_bytes())
}

/// Adds `first` and then `second`, in 8 bytes each.
pub(crate) fn put_pair(out: &mut Vec<u8>, first: u64, second: u64) -> Result<(), AllocError>
    ensures { OnOk result
        (out.new.items ≡ out.old.items ++ (to_le_bytes w64 first ++ to_le_bytes w64 second)) }
{
    put_number(out, first)?;
    put_number(out, second)
}
