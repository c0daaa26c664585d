//! The line feeds of a text.

ghost use Rattle.std.specs.Prelude.{◌≡◌, ◌==◌, ◌≤◌, ◌<◌, ◌^◌, length, count_by};

/// How many bytes are counted at once: the most that are whole vectors of sixteen, and whose count fits one byte.
const AT_ONCE: usize = 240;

/// How many of at most 255 bytes are line feeds. Since one byte holds their count, a machine counts many bytes in one
/// step.
fn line_feeds_of_few(bytes: &[u8]) -> u8
    requires { length bytes.now ≤ 255 }
    ensures { result ≡ count_by (λ b. b == 10) bytes.now }
{
    let mut count: u8 = 0;
    for b in bytes {
        if *b == b'\n' {
            count += 1;
        }
    }
    count
}

/// How many of the bytes are line feeds.
pub fn line_feeds(bytes: &[u8]) -> u64
    requires { length bytes.now < 2 ^ 64 }
    ensures { result ≡ count_by (λ b. b == 10) bytes.now }
{
    let mut total: u64 = 0;
    for few in bytes.chunks(AT_ONCE) {
        let ended = line_feeds_of_few(few);
        total += ended as u64;
    }
    total
}
