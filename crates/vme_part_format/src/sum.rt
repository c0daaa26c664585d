//! The checksum that a part ends with.

ghost use Rattle.std.specs.Prelude.{◌≡◌, ◌≢◌, ℕ, List};
ghost use Rattle.vme_part_format.specs.Sums.{DifferInOne, sum_of};

/// The offset basis of FNV-1a: the sum of no bytes.
const OFFSET_BASIS: u64 = 14695981039346656037;

/// The prime of FNV-1a, by which the sum is multiplied after each byte.
const PRIME: u64 = 1099511628211;

/// The sum of `bytes`, taken byte by byte.
fn sum_by_bytes(bytes: &[u8]) -> u64
    ensures { result ≡ sum_of bytes.now }
{
    let mut sum = OFFSET_BASIS;
    for byte in bytes {
        sum = (sum ^ u64::from(*byte)).wrapping_mul(PRIME);
    }
    sum
}

/// The checksum of `bytes`: their FNV-1a hash of 64 bits.
pub fn sum_of_bytes(bytes: &[u8]) -> u64
    ensures sum { result ≡ sum_of bytes.now }

    // The sum of other bytes of the same length that differ in one byte is another.
    ensures tells { (others : List ℕ) → DifferInOne bytes.now others → sum_of others ≢ result }
{
    sum_by_bytes(bytes)
}
