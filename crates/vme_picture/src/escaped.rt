//! Bytes as characters of markup.

ghost use Rattle.std.specs.Prelude.{◌≡◌, ◌++◌, IfOk, OnOk, OnErr};
ghost use Rattle.vme_picture.specs.Markup.{escaped, escaped_byte};

use std::alloc::{AllocError, Global};
use vme_text::{Text, push_escaped};

/// Bytes as characters of markup: `&`, `<`, `>` and `"` as entities, and any other as it is shown to people.
pub(crate) fn escaped(alloc: Global, bytes: &[u8]) -> Result<Text, AllocError>
    ensures { IfOk result (λ text. text ≡ escaped bytes.now) }
{
    let mut text = Text::new(alloc);
    for byte in bytes {
        push_escaped_byte(&mut text, alloc, *byte)?;
    }
    Ok(text)
}

/// Appends a byte as characters of markup.
fn push_escaped_byte(text: &mut Text, alloc: Global, byte: u8) -> Result<(), AllocError>
    ensures ok { OnOk result (text.new ≡ text.old ++ escaped_byte byte) }
    ensures err { OnErr result (text.new ≡ text.old) }
{
    match byte {
        b'&' => text.push(b"&amp;"),
        b'<' => text.push(b"&lt;"),
        b'>' => text.push(b"&gt;"),
        b'"' => text.push(b"&quot;"),
        _ => push_escaped(text, alloc, &[byte]),
    }
}
