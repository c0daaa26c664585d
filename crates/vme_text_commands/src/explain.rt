//! Why a recording is judged as it is.

ghost use Rattle.std.specs.Prelude.{◌≡◌, ◌++◌, ℕ, List, None, Option, IfOk, IfSome, Result};
ghost use Rattle.vme_bind.specs.Binding.{binding_of};
ghost use Rattle.vme_stream.specs.Answers.{AnswerGives, binding_read, capture_by, dump_read, or_bad_binding};
ghost use Rattle.vme_stream.specs.Answers.{or_too_long};
ghost use Rattle.vme_stream.specs.Ends.{Ends};
ghost use Rattle.vme_stream.specs.Texts.{line_of, verdict_text};
ghost use Rattle.vme_stream.specs.declared.refusal.Refusal.{Refusal as Refused};
ghost use Rattle.vme_text_commands.specs.Explained.{ExplainsWith, IsExplained, IsExplainedWhole};
ghost use Rattle.vme_text_commands.specs.Explained.{explained_answer_by, explained_files, judged_by};
ghost use Rattle.vme_text_commands.specs.ExplainedDumps.{GivesAccount, judged_whole, short_read};
ghost use Rattle.vme_text_commands.specs.Refused.{HasRefusalPage};
ghost use Rattle.vme_commands.specs.Settled.{settled_judgement};
ghost use Rattle.vme_picture.specs.Pictures.{IsPicture};
ghost use Rattle.vme_skew.specs.Settled.{settled_or};
ghost use Rattle.vme_text.specs.Escaping.{IsVisible};
ghost use Rattle.vme_stream.specs.Inputs.{IsReading};
ghost use Rattle.vme_trace.specs.Trace.{Trace};
ghost use Rattle.vme_trace.specs.WellFormed.{malformed_step};

use crate::explained_input::{KeptDump, taken_dump};
use crate::refused::{
    NamedInput, complain_with, show_binding, show_fault_context, show_suggestions,
};
use std::alloc::{AllocError, Global};
use std::marker::Brand;
use vme_account::{Account, AccountVisitor, NoAccount};
use vme_bind::Binding;
use vme_commands::settled_visitor;
use vme_explain::{Subject, explanation, save_file};
use vme_picture::picture;
use vme_skew::{GhostSkew, SettlingVisitor};
use vme_stream::{
    Input, Refusal, binding_in, read_all, verdict_line, verdict_status, write_answer,
};
use vme_summary::NoVerdict;
use vme_text::Text;
use vme_trace::{Sink, Source, Verdict};

/// The names of the input files.
#[derive(Clone, Copy)]
pub struct InputNames<'a> {
    /// The binding.
    pub binding: &'a [u8],
    /// The dump.
    pub dump: &'a [u8],
}

/// A verdict with its explanation.
#[derive(Drop)]
pub struct Explained {
    /// The verdict.
    pub verdict: Verdict,
    /// The line of the verdict, and then why.
    pub text: Text,
    /// The contents of the files that may be written.
    pub files: ExplainedFiles,
}

/// The contents of the files that may be written beside an explanation.
#[derive(Drop)]
pub struct ExplainedFiles {
    /// A save file for the waveform viewer, for a dump of the name that was given.
    pub viewer: Text,
    /// A picture.
    pub picture: Text,
}

/// Judges the recording that the binding makes of the dump, settled, i.e. deskewed, by `skew`. Writes to `out` the line
/// of the verdict, as `check` does, and then why. If there is no verdict, writes to `err` why, as `check` does, and
/// then what the inputs have there and what the refusal means. The status is that of `check`. The save file is for a
/// dump with the given name. There are no files where no verdict is written.
pub fn explain<B: Source, D: Source, O: Sink, E: Sink>(
    alloc: Global,
    binding: &mut B,
    dump: &mut D,
    names: InputNames<'_>,
    skew: u64,
    out: &mut O,
    err: &mut E,
) -> (u8, Option<ExplainedFiles>)
    ensures told { ExplainsWith skew
        (B.reading binding.old, B.reading binding.new) (D.reading dump.old, D.reading dump.new) result.1
        (O.writing out.old, O.writing out.new) (E.writing err.old, E.writing err.new) result.0 }
    ensures drawn { IfSome result.1 (λ files. IsPicture files.picture) }
{
    let mut shown = Text::new(alloc);
    let told = explained_from(alloc, binding, dump, names, skew, &mut shown);
    tell_explained(alloc, told, &shown, out, err)
}

/// Writes the explanation to `out`, or to `err` why there is no verdict, with the excerpt `shown` of the inputs.
/// Returns the exit status, and the contents of the files.
fn tell_explained<O: Sink, E: Sink>(
    alloc: Global,
    made: Result<Explained, Refusal>,
    shown: &Text,
    out: &mut O,
    err: &mut E,
) -> (u8, Option<ExplainedFiles>)
    ensures told { (more : List ℕ) × HasRefusalPage made more × Ends (explained_answer_by more made)
        (O.writing out.old, O.writing out.new) (E.writing err.old, E.writing err.new) result.0 }
    ensures files { result.1 ≡ explained_files made }
    ensures drawn { IsExplained made → IfSome result.1 (λ files. IsPicture files.picture) }
{
    match made {
        Ok(told) => {
            let Explained {
                verdict,
                text,
                files,
            } = told;
            let status = write_answer(text.as_bytes(), verdict_status(&verdict), out, err);
            (status, Some(files))
        }
        Err(refusal) => {
            complain_with(alloc, err, &refusal, shown);
            (refusal.status(), None)
        }
    }
}

/// The verdict on the recording that the binding makes of the dump, deskewed by `skew`, with its explanation. The
/// binding is read first. If there is no verdict, an excerpt of the refused input is appended to `shown`.
fn explained_from<B: Source, D: Source>(
    alloc: Global,
    binding: &mut B,
    dump: &mut D,
    names: InputNames<'_>,
    skew: u64,
    shown: &mut Text,
) -> Result<Explained, Refusal>
    ensures read { (binding_bytes dump_bytes : Option (List ℕ))
        × IsReading (B.reading binding.old) (B.reading binding.new) binding_bytes
        × IsReading (D.reading dump.old) (D.reading dump.new) dump_bytes
        × AnswerGives (λ told. told.verdict) result (settled_judgement skew binding_bytes dump_bytes 16384) }
    ensures begins { IsExplained result }
{
    match read_all(alloc, binding) {
        Ok(text) => explained_bound(alloc, text.as_slice(), dump, names, skew, shown),
        Err(fault) => Err(Refusal::of_input(Input::Binding, fault)),
    }
}

/// `explained_from`, for the text `binding` of the binding.
fn explained_bound<D: Source>(
    alloc: Global,
    binding: &[u8],
    dump: &mut D,
    names: InputNames<'_>,
    skew: u64,
    shown: &mut Text,
) -> Result<Explained, Refusal>
    ensures read { (bytes : Option (List ℕ))
        × IsReading (D.reading dump.old) (D.reading dump.new) bytes
        × ((b : Option (List ℕ)) → binding_read b ≡ or_bad_binding (binding_of binding.now)
        → AnswerGives (λ told. told.verdict) result (settled_judgement skew b bytes 16384)) }
    ensures begins { IsExplained result }
{
    match binding_in(alloc, binding) {
        Ok(bound) => explained_by(alloc, binding, &bound, dump, names, skew, shown),
        Err(refusal) => {
            show_binding(
                shown,
                alloc,
                &refusal,
                NamedInput::new(names.binding, binding),
            );
            Err(refusal)
        }
    }
}

/// `explained_from`, for a binding and its text.
fn explained_by<D: Source>(
    alloc: Global,
    binding: &[u8],
    bound: &Binding,
    dump: &mut D,
    names: InputNames<'_>,
    skew: u64,
    shown: &mut Text,
) -> Result<Explained, Refusal>
    ensures read { (bytes : Option (List ℕ))
        × IsReading (D.reading dump.old) (D.reading dump.new) bytes
        × AnswerGives (λ told. told.verdict) result (judged_by skew bound.now (dump_read bytes)) }
    ensures begins { IsExplained result }
{
    let (account, kept) = account_of_dump(alloc, bound, dump, skew);
    if let Err(refusal) = &account {
        show_inputs(shown, alloc, refusal, binding, bound, &kept, names);
    }
    explained_account(alloc, binding, account, &kept, names.dump)
}

/// Appends excerpts of the inputs where they are refused, and what the dump has instead. If memory runs out, the text
/// is cut off.
fn show_inputs(
    shown: &mut Text,
    alloc: Global,
    refusal: &Refusal,
    binding: &[u8],
    bound: &Binding,
    kept: &KeptDump,
    names: InputNames<'_>,
) {
    show_binding(
        shown,
        alloc,
        refusal,
        NamedInput::new(names.binding, binding),
    );
    show_suggestions(
        shown,
        alloc,
        refusal,
        binding,
        bound.lines().slots(),
        kept.variables.as_slice(),
    );
    if let Some(context) = &kept.context {
        show_fault_context(shown, alloc, refusal, names.dump, context);
    }
}

/// The account of the recording that the binding makes of the dump, deskewed by `skew`, or the first reason that there
/// is none; and what is kept of the dump.
fn account_of_dump<D: Source>(
    alloc: Global,
    bound: &Binding,
    dump: &mut D,
    skew: u64,
) -> (Result<Account, Refusal>, KeptDump)
    ensures { (bytes : Option (List ℕ))
        × IsReading (D.reading dump.old) (D.reading dump.new) bytes
        × GivesAccount result.0 (settled_or skew (capture_by bound.now (dump_read bytes))) }
{
    if skew == 0 {
        unsettled_account(alloc, bound, dump)
    } else {
        settled_account::<Brand, D>(alloc, bound, dump, skew)
    }
}

/// `account_of_dump` without a skew.
fn unsettled_account<D: Source>(
    alloc: Global,
    bound: &Binding,
    dump: &mut D,
) -> (Result<Account, Refusal>, KeptDump)
    ensures { (bytes : Option (List ℕ))
        × IsReading (D.reading dump.old) (D.reading dump.new) bytes
        × GivesAccount result.0 (capture_by bound.now (dump_read bytes)) }
{
    let visitor = AccountVisitor::new(alloc, bound.lines());
    let (taken, kept) = taken_dump(alloc, bound, dump, visitor);
    (account_of(taken), kept)
}

/// `account_of_dump`, where the type `K` stands for `skew`.
fn settled_account<K: GhostSkew, D: Source>(
    alloc: Global,
    bound: &Binding,
    dump: &mut D,
    skew: u64,
) -> (Result<Account, Refusal>, KeptDump)
    requires { skew ≡ K.skew }
    ensures { (bytes : Option (List ℕ))
        × IsReading (D.reading dump.old) (D.reading dump.new) bytes
        × GivesAccount result.0 (settled_or K.skew (capture_by bound.now (dump_read bytes))) }
{
    let lines = bound.lines();
    let visitor = AccountVisitor::new(alloc, lines);
    let settling: SettlingVisitor<K, AccountVisitor> = SettlingVisitor::new(
        alloc, lines, skew, visitor,
    );
    let (taken, kept) = taken_dump(alloc, bound, dump, settling);
    (account_by_skew(alloc, taken), kept)
}

/// The account of a recording whose steps were taken, or the reason that they weren't.
fn account_of(taken: Result<AccountVisitor, Refusal>) -> Result<Account, Refusal>
    ensures { (read : Result Trace Refused) → AnswerGives (λ v. v) taken read
        → IfOk taken (λ v. malformed_step v ≡ None) → GivesAccount result (short_read read) }
{
    let visitor = taken?;
    account_in(visitor)
}

/// The account of a recording whose steps were all taken by `visitor`.
fn account_in(visitor: AccountVisitor) -> Result<Account, Refusal>
    ensures { malformed_step visitor ≡ None → GivesAccount result (or_too_long visitor) }
{
    match visitor.finish() {
        Ok(account) => Ok(account),
        Err(NoAccount::TooManySteps) => Err(Refusal::of_judging(NoVerdict::TooManySteps)),
        Err(NoAccount::TooManyBlocks) => Err(Refusal::TooManyBlocks),
        Err(NoAccount::Memory) => Err(Refusal::Memory),
    }
}

/// The account of a recording that is deskewed as its steps were taken, or the reason that they weren't.
fn account_by_skew<K: GhostSkew>(
    alloc: Global,
    taken: Result<SettlingVisitor<K, AccountVisitor>, Refusal>,
) -> Result<Account, Refusal>
    ensures { (read : Result Trace Refused) → AnswerGives (λ v. v) taken read
        → IfOk taken (λ v. malformed_step v ≡ None)
        → GivesAccount result (settled_or K.skew (short_read read)) }
{
    let settling = taken?;
    account_of(settled_visitor(alloc, settling))
}

/// The explanation of a recording by its account, or why there is none.
fn explained_account(
    alloc: Global,
    binding: &[u8],
    account: Result<Account, Refusal>,
    kept: &KeptDump,
    name: &[u8],
) -> Result<Explained, Refusal>
    ensures read { (captured : Result Trace Refused) → GivesAccount account captured
        → AnswerGives (λ told. told.verdict) result (judged_whole captured) }
    ensures begins { IsExplained result }
{
    let account = account?;
    match told_of(alloc, binding, &account, account.verdict(), kept, name) {
        Ok(told) => Ok(told),
        Err(_) => Err(Refusal::Memory),
    }
}

/// The explanation of a verdict. The only error is want of memory.
fn told_of(
    alloc: Global,
    binding: &[u8],
    account: &Account,
    verdict: Verdict,
    kept: &KeptDump,
    name: &[u8],
) -> Result<Explained, AllocError>
    ensures verdict { IfOk result (λ told. told.verdict ≡ verdict) }
    ensures begins { IfOk result IsExplainedWhole }
{
    let subject = Subject {
        account,
        verdict: &verdict,
        binding,
        variables: kept.variables.as_slice(),
        time_unit: kept.time_unit,
        time_scale: kept.time_scale.as_bytes(),
    };
    let text = whole_text(alloc, &verdict, &subject)?;
    let viewer = save_file(alloc, &subject, name)?;
    let drawn = picture(alloc, &subject, verdict_line(&verdict).as_bytes())?;
    Ok(Explained {
        verdict,
        text,
        files: ExplainedFiles {
            viewer,
            picture: drawn,
        },
    })
}

/// The line of a verdict, and then why, in visible characters, spaces and line feeds alone.
fn whole_text(alloc: Global, verdict: &Verdict, subject: &Subject<'_>) -> Result<Text, AllocError>
    ensures { IfOk result (λ text. (rest : List ℕ) × IsVisible rest
        × (text ≡ line_of (verdict_text verdict.now) ++ rest)) }
{
    let rest = explanation(alloc, subject)?;
    let text = text_after_line(alloc, verdict, &rest)?;
    Ok(text)
}

/// The line of a verdict, and then `rest`.
fn text_after_line(alloc: Global, verdict: &Verdict, rest: &Text) -> Result<Text, AllocError>
    ensures { IfOk result (λ text. text ≡ line_of (verdict_text verdict.now) ++ rest.now) }
{
    let mut text = Text::new(alloc);
    text.push(verdict_line(verdict).as_bytes())?;
    text.push(rest.as_bytes())?;
    Ok(text)
}
