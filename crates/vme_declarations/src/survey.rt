//! A dump that is surveyed as its text comes: what it declares, and which of its bits move.

ghost use Rattle.std.specs.Prelude.{◌≡◌, ◌≤◌, ◌++◌, [], ℕ, List, IfErr, IfOk, IfSome, Ok, Err, false, length, take};
ghost use Rattle.vcd_read.specs.Bodies.{BodyContinuesTo};
ghost use Rattle.vcd_read.specs.Meaning.{ReadFails, ReadGives, dump_of, is_want_of_memory};
ghost use Rattle.vcd_read.specs.Reached.{rest_of};
ghost use Rattle.vcd_read.specs.Reading.{EndsBetweenTokens, line_behind};
ghost use Rattle.vcd_read.specs.Tokens.{tokens_from};
ghost use Rattle.vme_declarations.specs.SurveyStages.{body_reached, stage_ahead, survey_ahead};
ghost use Rattle.vcd_read.specs.declared.fault.VcdFault.{VcdFault};
ghost use Rattle.vme_declarations.specs.Surveys.{IsSurveyOf, Survey, body_ahead, body_survey};
ghost use Rattle.vme_declarations.specs.Surveys.{most_instants, next_count, same_count};
ghost use Rattle.vme_declarations.specs.Surveys.{survey_of, variables_in};

use crate::declared::{DeclaredNames, NamesReader};
use crate::levels_seen::LevelsSeen;
use crate::non_memory_fault::NonMemoryFault;
use crate::reading::read_declarations;
use std::alloc::{AllocError, Global};
use std::marker::Model;
use vcd_read::{BodyReader, FaultKind, VcdFault, read_front, whole_tokens};

/// A dump whose definitions are read, and some pieces of its body.
#[derive(Drop)]
pub(crate) struct SurveyedBody {
    /// The prefix of the text in which the definitions end.
    front: Vec<u8>,
    /// The names that the definitions declare.
    names: DeclaredNames,
    /// The reader of the body, with the levels so far.
    body_reader: BodyReader<LevelsSeen>,
}

/// How far a dump is surveyed.
#[derive(Drop)]
pub(crate) enum SurveyStage {
    /// The definitions don't end in the bytes that were seen, and no byte was taken.
    Definitions,
    /// The definitions are read, and a part of the body.
    Body(SurveyedBody),
    /// The dump has a fault.
    Failed(NonMemoryFault),
}

/// A dump that is surveyed piece by piece: of its text only a prefix with the definitions is kept.
#[derive(Drop)]
pub struct DumpSurvey {
    stage: SurveyStage,
}

/// What a dump without a fault declares, and which of its bits move.
#[derive(Drop)]
pub struct SurveyedDump {
    front: Vec<u8>,
    names: DeclaredNames,
    levels: LevelsSeen,
}

impl Model for SurveyedDump {
    ghost use Rattle.vme_declarations.specs.Surveys.{Survey, variables_in};

    ghost Value = { Survey };

    ghost view = { λ d. record { variables = variables_in d.front.items; instants = d.levels.instants } };
}

impl SurveyedBody {
    /// Reads the definitions in `front`, a prefix of a text, and what `front` has of the body. The result is `None`
    /// where the definitions don't end in `front`.
    fn begin(alloc: Global, front: &[u8]) -> Result<Option<SurveyedBody>, VcdFault>
        requires { EndsBetweenTokens front.now }
        ensures begun { IfOk result (λ found. IfSome found (λ body. (rest : List ℕ)
            → survey_of (front.now ++ rest) ≡ body_ahead body.front.items (body_reached body) rest)) }
        ensures err { IfErr result (λ fault. (rest : List ℕ) → ReadFails fault (survey_of (front.now ++ rest))) }
    {
        let reader = NamesReader::new(alloc)?;
        match read_front(alloc, front, reader) {
            Ok(Some((head, reader))) => {
                let (body_reader, left) = head.before_body(LevelsSeen::none(alloc));
                match body_reader.read(alloc, left) {
                    Ok(body_reader) => Ok(Some(SurveyedBody {
                        front: Vec::from_slice(alloc, front)?,
                        names: reader.into_names(),
                        body_reader,
                    })),
                    Err(fault) => Err(fault),
                }
            }
            Ok(None) => Ok(None),
            Err(fault) => Err(fault),
        }
    }

    /// Takes the next piece of the body, which ends after a space, or where the text does.
    fn read(self, alloc: Global, piece: &[u8]) -> Result<SurveyedBody, VcdFault>
        ensures front { IfOk result (λ body. body.front.items ≡ self.front.items) }
        ensures line { IfOk result (λ body. (body_reached body).line
            ≡ line_behind (body_reached self).line piece.now) }
        ensures rest { BodyContinuesTo (λ body. rest_of same_count next_count (body_reached body) []) result
            (rest_of same_count next_count (body_reached self) (tokens_from (body_reached self).line piece.now)) }
    {
        let SurveyedBody {
            front,
            names,
            body_reader,
        } = self;
        let body_reader = body_reader.read(alloc, piece)?;
        Ok(SurveyedBody {
            front,
            names,
            body_reader,
        })
    }

    /// The survey at the end of the text.
    fn finish(self, alloc: Global) -> Result<SurveyedDump, VcdFault>
        ensures { ReadGives (λ dump. dump) result (body_survey self.front.items (body_reached self)) }
    {
        let SurveyedBody {
            front,
            names,
            body_reader,
        } = self;
        match body_reader.finish(alloc) {
            Ok(levels) => Ok(SurveyedDump {
                front,
                names,
                levels,
            }),
            Err(fault) => Err(fault),
        }
    }
}

impl DumpSurvey {
    /// The survey before the first byte.
    pub fn new() -> DumpSurvey
        ensures { (rest : List ℕ) → survey_ahead result rest ≡ survey_of rest }
    {
        DumpSurvey::at(SurveyStage::Definitions)
    }

    /// The survey at `stage`.
    fn at(stage: SurveyStage) -> DumpSurvey
        ensures { (rest : List ℕ) → survey_ahead result rest ≡ stage_ahead stage rest }
    {
        DumpSurvey { stage }
    }

    /// The fault that was met, if there is one: then the rest of the dump is taken, and isn't looked at.
    pub fn fault(&self) -> Option<VcdFault> {
        match &self.stage {
            SurveyStage::Failed(first) => Some(first.fault),
            _ => None,
        }
    }

    /// Takes a prefix of `bytes`, and returns its length. The only error is want of memory.
    pub fn take(self, alloc: Global, bytes: &[u8]) -> Result<(DumpSurvey, usize), AllocError>
        ensures within { IfOk result (λ made. made.1 ≤ length bytes.now) }
        ensures taken { IfOk result (λ made. (rest : List ℕ)
            → survey_ahead self (take made.1 bytes.now ++ rest) ≡ survey_ahead made.0 rest) }
    {
        let DumpSurvey { stage } = self;
        let count = whole_tokens(bytes);
        match stage {
            SurveyStage::Definitions => match SurveyedBody::begin(alloc, &bytes[..count]) {
                Ok(Some(body)) => Ok((DumpSurvey::at(SurveyStage::Body(body)), count)),
                Ok(None) => Ok((DumpSurvey::new(), 0)),
                Err(fault) => Ok((failed(fault)?, count)),
            },
            SurveyStage::Body(body) => match body.read(alloc, &bytes[..count]) {
                Ok(body) => Ok((DumpSurvey::at(SurveyStage::Body(body)), count)),
                Err(fault) => Ok((failed(fault)?, count)),
            },
            SurveyStage::Failed(first) => {
                Ok((DumpSurvey::at(SurveyStage::Failed(first)), bytes.len()))
            }
        }
    }

    /// The survey of the dump, where `rest` is the rest of its text. A fault is the first of the dump; at line 0 it is
    /// want of memory.
    pub fn finish(self, alloc: Global, rest: &[u8]) -> Result<SurveyedDump, VcdFault>
        ensures { ReadGives (λ dump. dump) result (survey_ahead self rest.now) }
    {
        match self.stage {
            SurveyStage::Definitions => survey_whole(alloc, rest),
            SurveyStage::Body(body) => match body.read(alloc, rest) {
                Ok(body) => body.finish(alloc),
                Err(fault) => Err(fault),
            },
            SurveyStage::Failed(first) => Err(first.fault),
        }
    }
}

/// The survey of a dump that has `fault`: it takes all bytes that follow, and looks at none. Where `fault` is want of
/// memory, that is the error.
fn failed(fault: VcdFault) -> Result<DumpSurvey, AllocError>
    ensures not_want { IfOk result (λ survey. is_want_of_memory fault.kind ≡ false) }
    ensures ahead { IfOk result (λ survey. (rest : List ℕ) → survey_ahead survey rest ≡ Err fault) }
{
    match fault.kind {
        FaultKind::Memory => Err(AllocError),
        _ => {
            let first = NonMemoryFault { fault };
            Ok(DumpSurvey::at(SurveyStage::Failed(first)))
        }
    }
}

/// The survey of the whole text.
fn survey_whole(alloc: Global, text: &[u8]) -> Result<SurveyedDump, VcdFault>
    ensures { ReadGives (λ dump. dump) result (survey_of text.now) }
{
    let (names, levels) = read_declarations(alloc, text)?;
    Ok(SurveyedDump {
        front: Vec::from_slice(alloc, text)?,
        names,
        levels,
    })
}

impl SurveyedDump {
    /// A prefix of the text of the dump, in which its definitions end.
    pub fn front(&self) -> &[u8]
        ensures variables { variables_in result.now ≡ self.entry.now.variables }
        ensures few { self.entry.now.instants ≤ most_instants }
    {
        let _ = &self.levels;
        &self.front
    }

    /// The scopes and the variables.
    pub fn names(&self) -> &DeclaredNames {
        &self.names
    }

    /// Which bits move.
    pub fn levels(&self) -> &LevelsSeen {
        &self.levels
    }
}

/// A survey has the variables and the number of instants of its dump, and the fault of a survey is one of the dump.
/// This is a law: a call does nothing.
pub fn surveys_are_of_dumps()
    ensures are { (text : List ℕ) (survey : Survey) → survey_of text ≡ Ok survey → IsSurveyOf survey text }
    ensures fails { (text : List ℕ) (fault : VcdFault) → ReadFails fault (survey_of text)
        → ReadFails fault (dump_of text) }
{}
