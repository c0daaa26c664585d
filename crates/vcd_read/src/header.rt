//! The header: sections, and what they declare.

ghost use Rattle.std.specs.Prelude.{MatchOption, Some, Err, drop, ◌≡◌, ◌≤◌, ◌<◌, ◌∷◌, [], length, IfOk, OnOk};
ghost use Rattle.std.specs.Prelude.{Ok, true};
ghost use Rattle.std.specs.List.{All, concat};
ghost use Rattle.vcd_read.specs.Reading.{line_at, left_at, token_at};
ghost use Rattle.vcd_read.specs.Header.{is_code, is_end, opens_section, var_words, reference_of, net_of, net_for};
ghost use Rattle.vcd_read.specs.Header.{variable_in, at_line, declare_var, nothing_declared};
ghost use Rattle.vcd_read.specs.Scopes.{texts};
ghost use Rattle.vcd_read.specs.Meaning.{ReadGives};
ghost use Rattle.vcd_read.specs.declared.fault.FaultKind.TheVariants.{SizeConflict};
ghost use Rattle.vcd_read.specs.Sections.{opening_of, var_of, ReturnsAs, section_from, after_section, declared_by};
ghost use Rattle.vcd_read.specs.Sections.{SectionContinuesAs, headed, header_of};

use crate::body_piece::Start;
use crate::codes::Codes;
use crate::declaration_visitor::{Declaration, DeclarationVisitor};
use crate::fault::{FaultKind, VcdFault};
use crate::number::decimal;
use crate::reference::{Reference, reference_of};
use crate::shape::is_end;
use crate::token::{Reader, Token};
use std::alloc::{AllocError, Global};

/// The most bits that a variable has.
const MAX_SIZE: u64 = 65_536;

/// What the sections so far declare.
#[derive(Drop)]
pub(crate) struct Definitions<D: DeclarationVisitor> {
    /// The identifier codes of the variables, and their nets.
    pub codes: Codes,
    /// The visitor of the scopes and the variables.
    pub declarations: D,
}

/// What the first token of a section opens.
#[derive(Clone, Copy)]
enum Opening {
    /// `$var`.
    Var,
    /// `$scope`.
    Scope,
    /// `$upscope`.
    Upscope,
    /// `$enddefinitions`.
    EndDefinitions,
    /// A section that says nothing of the variables.
    Skipped,
    /// No section.
    Nothing,
}

/// The words of a variable's section after its type.
#[derive(Clone, Copy)]
struct VarSection<'w> {
    size: u32,
    code: &'w [u8],
    reference: &'w [&'w [u8]],
}

/// Whether each byte may be in an identifier code: `!` to `~`.
fn is_code(word: &[u8]) -> bool
    ensures { result ≡ is_code word.now }
{
    word.iter().all(|b| matches!(*b, b'!'..=b'~'))
}

/// Whether a token opens a section.
pub fn opens_section(word: &[u8]) -> bool
    ensures { result ≡ opens_section word.now }
{
    matches!(word, [b'$', ..]) && !is_end(word)
}

/// What the first token of a section opens.
fn opening_of(word: &[u8]) -> Opening
    ensures { result ≡ opening_of word.now }
{
    if !opens_section(word) {
        Opening::Nothing
    } else if word == b"$var".as_slice() {
        Opening::Var
    } else if word == b"$scope".as_slice() {
        Opening::Scope
    } else if word == b"$upscope".as_slice() {
        Opening::Upscope
    } else if word == b"$enddefinitions".as_slice() {
        Opening::EndDefinitions
    } else {
        Opening::Skipped
    }
}

/// Reads the section of a variable, by its words.
fn var_section<'w>(words: &'w [&'w [u8]]) -> Result<VarSection<'w>, FaultKind>
    ensures { ReturnsAs var_of result (var_words (texts words.now)) }
{
    let [_, size, code, reference @ ..] = words else {
        return Err(FaultKind::BadVar);
    };
    if reference.is_empty() {
        return Err(FaultKind::BadVar);
    }
    let size = decimal(size, MAX_SIZE, FaultKind::BadVar)? as u32;
    if !is_code(code) {
        return Err(FaultKind::BadVar);
    }
    Ok(VarSection {
        size,
        code,
        reference,
    })
}

/// The words of a section up to its end.
fn words_of<'a>(
    alloc: Global,
    reader: &mut Reader<'a>,
    first: usize,
) -> Result<Vec<&'a [u8]>, VcdFault>
    requires { first ≤ length reader.old.text.bytes.now }
    ensures text { reader.new.text ≡ reader.old.text }
    ensures moves { OnOk result (reader.old.at ≤ reader.new.at) }
    ensures words { ReadGives
        (λ words. record { words = texts words.items; rest = left_at reader.old.text reader.new.at }) result
        (section_from (line_at reader.old.text first) (left_at reader.old.text reader.old.at)) }
    ensures each { IfOk result (λ words. All (λ word. 0 < length word.now) words.items) }
{
    let mut words = Vec::new(alloc);
    while let Some(token) = reader.next() {
        if is_end(token.bytes) {
            return Ok(words);
        }
        words.push(token.bytes)?;
    }
    Err(reader.fault(Start::Here(first), FaultKind::UnfinishedSection))
}

/// Reads past the end of a section.
fn skip_section(reader: &mut Reader<'_>, first: usize) -> Result<(), VcdFault>
    requires { first ≤ length reader.old.text.bytes.now }
    ensures text { reader.new.text ≡ reader.old.text }
    ensures moves { OnOk result (reader.old.at ≤ reader.new.at) }
    ensures rest { ReadGives (λ _. left_at reader.old.text reader.new.at) result
        (after_section (line_at reader.old.text first) (left_at reader.old.text reader.old.at)) }
{
    while let Some(token) = reader.next() {
        if is_end(token.bytes) {
            return Ok(());
        }
    }
    Err(reader.fault(Start::Here(first), FaultKind::UnfinishedSection))
}

/// The words joined, without anything between them.
fn joined(alloc: Global, words: &[&[u8]]) -> Result<Vec<u8>, AllocError>
    ensures { IfOk result (λ text. text.items ≡ concat (texts words.now)) }
{
    words.concat(alloc)
}

/// The name of a scope, by the words of its section.
fn scope_name(alloc: Global, words: &[&[u8]]) -> Result<Vec<u8>, AllocError>
    ensures { IfOk result (λ name. name.items ≡ concat (drop 1 (texts words.now))) }
{
    match words {
        [_, name @ ..] => joined(alloc, name),
        [] => Ok(Vec::new(alloc)),
    }
}

/// The net of a variable's code: a new one, or that of the variables before it. `None` if they have another size.
fn net_for(
    codes: &mut Codes,
    alloc: Global,
    code: &[u8],
    size: u32,
) -> Result<Option<u32>, AllocError>
    ensures { IfOk result (λ net. MatchOption net
        (net_for codes.old code.now size (net_of codes.old code.now) ≡ Err SizeConflict)
        (λ n. net_for codes.old code.now size (net_of codes.old code.now)
        ≡ Ok (record { net = n; nets = codes.new }))) }
{
    match codes.net(code) {
        Some(net) if codes.size(net) == size => Ok(Some(net)),
        Some(_) => Ok(None),
        None => Ok(Some(codes.add(alloc, code, size)?)),
    }
}

/// Gives the variable that a section declares to `declarations`, with its net `net`.
fn declare_on<D: DeclarationVisitor>(
    declarations: &mut D,
    alloc: Global,
    var: VarSection<'_>,
    net: u32,
) -> Result<(), AllocError>
    requires { 0 < length (concat (texts var.reference.now)) }
    ensures scopes { OnOk result (D.scopes declarations.new ≡ D.scopes declarations.old) }
    ensures taken { OnOk result (D.taken declarations.new ≡ D.with_variable (D.taken declarations.old)
        (variable_in (D.scopes declarations.old) net var.entry.size
        (reference_of var.entry.size (concat (texts var.entry.reference.now))))) }
{
    let text = joined(alloc, var.reference)?;
    let Reference { name, index } = reference_of(&text, var.size);
    declarations.declare(
        alloc,
        Declaration {
            name,
            index,
            size: var.size,
            net,
        },
    )
}

impl<D: DeclarationVisitor> Definitions<D> {
    /// Nothing is declared yet. It fails if memory runs out.
    fn new(alloc: Global, declarations: D) -> Result<Definitions<D>, AllocError>
        requires { D.scopes declarations ≡ [] }
        ensures { IfOk result (λ d. declared_by D.scopes D.taken d ≡ nothing_declared (D.taken declarations)) }
    {
        Ok(Definitions {
            codes: Codes::new(alloc)?,
            declarations,
        })
    }

    /// Declares a variable, by the words of its section.
    fn declare(
        &mut self,
        alloc: Global,
        reader: &Reader<'_>,
        first: usize,
        words: &[&[u8]],
    ) -> Result<(), VcdFault>
        requires first { first ≤ length reader.now.text.bytes.now }
        requires each { All (λ word. 0 < length word.now) words.now }
        ensures { ReadGives (λ _. declared_by D.scopes D.taken self.new) result
            (at_line (line_at reader.now.text first)
            (declare_var D.with_variable (declared_by D.scopes D.taken self.old) (texts words.now))) }
    {
        let var = match var_section(words) {
            Ok(var) => var,
            Err(kind) => return Err(reader.fault(Start::Here(first), kind)),
        };
        let Some(net) = net_for(&mut self.codes, alloc, var.code, var.size)? else {
            return Err(reader.fault(Start::Here(first), FaultKind::SizeConflict));
        };
        declare_on(&mut self.declarations, alloc, var, net)?;
        Ok(())
    }

    /// Reads the section that `first` opens. Answers whether the definitions continue after it.
    fn section<'a>(
        &mut self,
        alloc: Global,
        reader: &mut Reader<'a>,
        first: Token<'a>,
    ) -> Result<bool, VcdFault>
        requires { first.at ≤ length reader.old.text.bytes.now }
        ensures text { reader.new.text ≡ reader.old.text }
        ensures moves { result ≡ Ok true → reader.old.at ≤ reader.new.at }
        ensures rest { let text = reader.old.text.bytes.now in
            let piece = reader.old.text in
            let new = declared_by D.scopes D.taken self.new in
            SectionContinuesAs (header_of D.with_variable text (declared_by D.scopes D.taken self.old)
            (token_at piece first.entry.at first.entry.bytes.now ∷ left_at piece reader.old.at))
            (header_of D.with_variable text new (left_at piece reader.new.at))
            (headed new (left_at piece reader.new.at)) result }
    {
        match opening_of(first.bytes) {
            Opening::Nothing => return Err(reader.fault(
                Start::Here(first.at),
                FaultKind::BadToken,
            )),
            Opening::Var => {
                let words = words_of(alloc, reader, first.at)?;
                self.declare(alloc, reader, first.at, &words)?;
            }
            Opening::Scope => {
                let words = words_of(alloc, reader, first.at)?;
                let name = scope_name(alloc, &words)?;
                self.declarations.open(alloc, &name)?;
            }
            Opening::Upscope => {
                skip_section(reader, first.at)?;
                if !self.declarations.close() {
                    return Err(reader.fault(Start::Here(first.at), FaultKind::ScopeUnderflow));
                }
            }
            Opening::EndDefinitions => {
                skip_section(reader, first.at)?;
                return Ok(false);
            }
            Opening::Skipped => skip_section(reader, first.at)?,
        }
        Ok(true)
    }
}

/// Reads the header of a text, up to the end of its definitions. An error is the first fault met.
pub(crate) fn read_header<D: DeclarationVisitor>(
    alloc: Global,
    reader: &mut Reader<'_>,
    declarations: D,
) -> Result<Definitions<D>, VcdFault>
    requires first { reader.old.text.line ≡ 1 }
    requires scopes { D.scopes declarations ≡ [] }
    ensures text { reader.new.text ≡ reader.old.text }
    ensures header { let text = reader.old.text in
        ReadGives (λ d. headed (declared_by D.scopes D.taken d) (left_at text reader.new.at)) result
        (header_of D.with_variable text.bytes.now (nothing_declared (D.taken declarations))
        (left_at text reader.old.at)) }
{
    let mut definitions = Definitions::new(alloc, declarations)?;
    while let Some(token) = reader.next() {
        if !definitions.section(alloc, reader, token)? {
            return Ok(definitions);
        }
    }
    Err(reader.fault(
        Start::Here(reader.text.bytes.len()),
        FaultKind::NoEndDefinitions,
    ))
}
