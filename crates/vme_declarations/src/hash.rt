//! A hash of bytes: FNV-1a with 64 bits, by Fowler, Noll and Vo.

ghost use Rattle.std.specs.Prelude.{◌≡◌};
ghost use Rattle.vme_declarations.specs.Hashes.{hash_of, hash_of_number};

/// The hash of no bytes.
pub const EMPTY_HASH: u64 = 0xcbf2_9ce4_8422_2325;

/// The FNV prime of 64 bits.
const PRIME: u64 = 0x0100_0000_01b3;

/// The hash of `number` after what has the hash `before`.
pub(crate) fn hash_of_number(before: u64, number: u64) -> u64
    ensures { result ≡ hash_of_number before number }
{
    (before ^ number).wrapping_mul(PRIME)
}

/// The hash of `bytes` after what has the hash `before`.
pub fn hash_of(before: u64, bytes: &[u8]) -> u64
    ensures { result ≡ hash_of before bytes.now }
{
    let mut hash = before;
    for byte in bytes {
        hash = hash_of_number(hash, u64::from(*byte));
    }
    hash
}
