//! The binding of all lines to constants.

ghost use Rattle.std.specs.Prelude.{◌≤◌, IfOk};
ghost use Rattle.vme_find.specs.Constants.{BindsConstants};

use std::alloc::{AllocError, Global};
use vme_text::Text;

/// The text that binds all lines of a backplane of `slots` slots to constants: those of an idle bus, but with BBSY Low.
/// It fails if memory runs out.
pub(crate) fn constant_text(alloc: Global, slots: u8) -> Result<Text, AllocError>
    requires { (1 ≤ slots) × (slots ≤ 21) }
    ensures { IfOk result (λ text. BindsConstants slots text) }
{
    let mut text = Text::new(alloc);
    text.push(b"slots ")?;
    text.push_decimal(alloc, u64::from(slots))?;
    text.push(
        b"\nAS = 1\nDS0 = 1\nDS1 = 1\nDTACK = 1\nBERR = 1\nIACK = 1\nLWORD = 1\nWRITE = 1\n",
    )?;
    text.push(b"BBSY = 0\nAM = 1\nA = 1\nBR = 1\nBG0 = 1\nBG1 = 1\nBG2 = 1\nBG3 = 1\nIA = 1\n")?;
    Ok(text)
}
