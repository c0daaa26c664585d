//! The rules.

ghost use Rattle.std.specs.Prelude.{◌≡◌, IfSome, Some, find};
ghost use Rattle.vme_trace.specs.Names.{is_rule_name};

use crate::name::Name;

/// A rule of the bus. The order of the variants is the order in which breaks at one instant are named.
///
/// "Near" an instant is at it or at the one before, so edges of one instant count in the order that conforms.
#[derive(Clone, Copy, Debug, PartialEq, Eq, PartialOrd, Ord)]
pub enum Rule {
    /// A control line is unknown.
    U1,
    /// A line that a cycle needs is unknown as AS* falls.
    U2,
    /// WRITE* is unknown as a transfer starts.
    U3,
    /// A data line that a write moves is unknown as a strobe falls, no later than its answer.
    U4,
    /// A transfer starts, and DTACK* or BERR* isn't high near.
    H1,
    /// A strobe rises before the transfer is answered.
    H2,
    /// A strobe falls in a transfer that is answered.
    H3,
    /// An answer line falls outside every transfer.
    H4,
    /// A transfer is answered again, or by both lines.
    H5,
    /// An answer line rises, and no strobe has risen since it fell.
    H6,
    /// AS* rises before a transfer that started earlier is answered.
    H7,
    /// A transfer is answered, and AS* isn't low near.
    H8,
    /// A line that the cycle needs changes before the cycle's first answer.
    S1,
    /// WRITE* changes before a strobe rises.
    S2,
    /// A data line that a write moves changes before the answer and before a strobe rises.
    S3,
    /// A single cycle has two transfers other than a read and then a write, or more.
    C1,
    /// A block transfer turns its direction.
    C2,
    /// A slot passes a grant on while it isn't granted.
    G1,
    /// A slot ends a grant while it is granted.
    G2,
    /// Two levels are granted at once.
    G3,
    /// A grant net falls, and BBSY* isn't high near.
    G4,
    /// A level is granted that wasn't requested since the last grant.
    G5,
    /// BBSY* falls, and no level is granted near.
    B1,
    /// BBSY* falls, and no grant fell since it last did.
    B2,
    /// AS* falls, and BBSY* isn't low near.
    B3,
    /// BBSY* falls by a grant that went past the last slot.
    B4,
    /// A slot passes an acknowledge on while it isn't acknowledged.
    I1,
    /// A slot passes an acknowledge on, and AS* or the strobes aren't low near.
    I2,
    /// A slot passes an acknowledge on after DTACK* answered.
    I3,
    /// An interrupt acknowledge cycle has a write.
    I4,
    /// An interrupt acknowledge cycle has a second transfer.
    I5,
}

/// How many rules there are.
pub const RULE_COUNT: usize = 31;

impl Rule {
    ghost use Rattle.std.specs.Prelude.{slice_get};
    ghost use Rattle.vme_trace.specs.Rules.{rule_name};
    ghost use Rattle.vme_trace.specs.Names.{rule_named, rule_number};
    ghost use Rattle.vme_trace.specs.Rules.{all_rules, is_unreadable};
    ghost use Rattle.vme_trace.specs.declared.rule.Rule.{Rule};

    /// All rules, in the order in which breaks at one instant are named.
    pub const ALL: [Rule; RULE_COUNT] = [
        Rule::U1,
        Rule::U2,
        Rule::U3,
        Rule::U4,
        Rule::H1,
        Rule::H2,
        Rule::H3,
        Rule::H4,
        Rule::H5,
        Rule::H6,
        Rule::H7,
        Rule::H8,
        Rule::S1,
        Rule::S2,
        Rule::S3,
        Rule::C1,
        Rule::C2,
        Rule::G1,
        Rule::G2,
        Rule::G3,
        Rule::G4,
        Rule::G5,
        Rule::B1,
        Rule::B2,
        Rule::B3,
        Rule::B4,
        Rule::I1,
        Rule::I2,
        Rule::I3,
        Rule::I4,
        Rule::I5,
    ];

    /// The place of the rule in [`Rule::ALL`], from 0.
    pub fn number(self) -> u8
        ensures number { result ≡ rule_number self }
        ensures there { slice_get all_rules result ≡ Some self }
    {
        self as u8
    }

    /// Whether a break of the rule says that a recording can't be read on, and not that it is wrong.
    pub fn is_unreadable(self) -> bool
        ensures { result ≡ is_unreadable self }
    {
        matches!(self, Rule::U1 | Rule::U2 | Rule::U3 | Rule::U4)
    }

    /// The name of the rule: the name of its variant.
    pub fn name(self) -> Name
        ensures { result ≡ rule_name self }
    {
        let name = match self {
            Rule::U1 => b"U1",
            Rule::U2 => b"U2",
            Rule::U3 => b"U3",
            Rule::U4 => b"U4",
            Rule::H1 => b"H1",
            Rule::H2 => b"H2",
            Rule::H3 => b"H3",
            Rule::H4 => b"H4",
            Rule::H5 => b"H5",
            Rule::H6 => b"H6",
            Rule::H7 => b"H7",
            Rule::H8 => b"H8",
            Rule::S1 => b"S1",
            Rule::S2 => b"S2",
            Rule::S3 => b"S3",
            Rule::C1 => b"C1",
            Rule::C2 => b"C2",
            Rule::G1 => b"G1",
            Rule::G2 => b"G2",
            Rule::G3 => b"G3",
            Rule::G4 => b"G4",
            Rule::G5 => b"G5",
            Rule::B1 => b"B1",
            Rule::B2 => b"B2",
            Rule::B3 => b"B3",
            Rule::B4 => b"B4",
            Rule::I1 => b"I1",
            Rule::I2 => b"I2",
            Rule::I3 => b"I3",
            Rule::I4 => b"I4",
            Rule::I5 => b"I5",
        };
        Name::of(name)
    }

    /// The rule whose name is `name`, if there is one; rules differ in their names.
    pub fn from_name(name: &[u8]) -> Option<Rule>
        ensures rule { result ≡ rule_named name.now }
        ensures named { IfSome result (λ rule. rule_name rule ≡ name.now) }
        ensures found { (rule : Rule) → rule_name rule ≡ name.now → result ≡ Some rule }
    {
        first_named(&Rule::ALL, name)
    }
}

/// The first of `rules` whose name is `name`, if there is one.
fn first_named(rules: &[Rule], name: &[u8]) -> Option<Rule>
    ensures { result ≡ find (is_rule_name name.now) rules.now }
{
    rules
        .iter()
        .copied()
        .find(|rule| rule.name().as_bytes() == name)
}
