//! The nets of the codes of one byte, found by that byte. A table has, for each byte, the net of that code and how many
//! bits the net has, if the code has one. A small dump has few other codes, so one look-up finds nearly every net.

ghost use Rattle.std.specs.Prelude.{◌≡◌, ◌<◌, ◌∷◌, [], if◌then◌else◌, ℕ, None, Some, IfOk, bytes_eq, length};
ghost use Rattle.vcd_read.specs.OneByteCodes.{one_byte_net_at};

use std::alloc::{AllocError, Global};

/// How many values a byte has.
const BYTES: usize = 256;

/// The table where no code has a net.
pub(crate) fn no_one_byte_codes(alloc: Global) -> Result<Vec<Option<(u32, u32)>>, AllocError>
    ensures whole { IfOk result (λ table. length table.items ≡ 256) }
    ensures none { IfOk result (λ table. (byte : ℕ) → one_byte_net_at table.items byte ≡ None) }
{
    let mut table = Vec::new(alloc);
    table.resize(BYTES, None)?;
    Ok(table)
}

/// The net of the code of the one byte `byte`, and the size of the net, if the code has one.
#[inline(always)]
pub(crate) fn one_byte_net(table: &[Option<(u32, u32)>], byte: u8) -> Option<(u32, u32)>
    requires { length table.now ≡ 256 }
    ensures { result ≡ one_byte_net_at table.now byte }
{
    table[byte as usize]
}

/// Gives a code of one byte a net and its size. Other codes are passed over.
pub(crate) fn enter_one_byte_code(table: &mut Vec<Option<(u32, u32)>>, code: &[u8], net: (u32, u32))
    requires { length table.old.items ≡ 256 }
    ensures whole { length table.new.items ≡ 256 }
    ensures net { (byte : ℕ) → byte < 256 → one_byte_net_at table.new.items byte
        ≡ (if bytes_eq code.now (byte ∷ []) then Some net else one_byte_net_at table.old.items byte) }
{
    if let [byte] = code {
        table[*byte as usize] = Some(net);
    }
}
