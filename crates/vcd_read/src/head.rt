//! A text whose definitions are read.

ghost use Rattle.std.specs.Prelude.{◌≡◌, [], length};
ghost use Rattle.vcd_read.specs.Header.{nothing_declared};
ghost use Rattle.vcd_read.specs.Tokens.{tokens};
ghost use Rattle.vcd_read.specs.Meaning.{ReadGives};
ghost use Rattle.vcd_read.specs.Sections.{defined, header_of};
ghost use Rattle.vcd_read.specs.BodyFold.{fold_body};

use crate::body::read_piece;
use crate::body_state::BodyState;
use crate::change_visitor::ChangeVisitor;
use crate::codes::Codes;
use crate::declaration_visitor::DeclarationVisitor;
use crate::fault::VcdFault;
use crate::header::{Definitions, read_header};
use crate::token::Reader;
use std::alloc::Global;
use std::marker::Model;

/// A text whose definitions are read, and the body after them, which isn't read yet.
#[derive(Drop)]
pub struct Head<'a> {
    reader: Reader<'a>,
    codes: Codes,
}

impl<'a> Model for Head<'a> {
    ghost use Rattle.vcd_read.specs.Sections.{Headed};
    ghost use Rattle.vcd_read.specs.Reading.{left_at};

    ghost Value = { Headed };

    ghost view = { λ h. record { nets = h.codes; body = left_at h.reader.text h.reader.at } };
}

/// Reads the definitions of a text, and gives its scopes and variables to `declarations`, in the order of the text. An
/// error is the first fault met.
pub fn read_definitions<D: DeclarationVisitor>(
    alloc: Global,
    text: &[u8],
    declarations: D,
) -> Result<(Head<'_>, D), VcdFault>
    requires { D.scopes declarations ≡ [] }
    ensures { ReadGives (λ made. defined made.0 (D.taken made.1)) result
        (header_of D.with_variable text.now (nothing_declared (D.taken declarations)) (tokens text.now)) }
{
    let mut reader = Reader::new(text);
    let Definitions {
        codes,
        declarations,
    } = read_header(alloc, &mut reader, declarations)?;
    Ok((Head { reader, codes }, declarations))
}

impl<'a> Head<'a> {
    /// How many nets the variables are names of.
    pub fn net_count(&self) -> usize
        ensures { result ≡ length self.now.nets }
    {
        self.codes.len()
    }

    /// Gives the changes of the body to a visitor, and ends the last instant. An error is the first fault met.
    pub fn read_body<T: ChangeVisitor>(&self, alloc: Global, visitor: T) -> Result<T, VcdFault>
        ensures { ReadGives (λ t. T.taken t) result (fold_body T.with_change T.with_instant self.now.nets
            (T.taken visitor) self.now.body) }
    {
        let reader = Reader {
            text: self.reader.text,
            at: self.reader.at,
        };
        let state = read_piece(alloc, reader, &self.codes, BodyState::new(visitor))?;
        state.finish(alloc)
    }
}
