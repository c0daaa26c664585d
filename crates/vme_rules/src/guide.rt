//! What each rule asks, for people.

ghost use Rattle.std.specs.Prelude.{◌≡◌};
ghost use Rattle.vme_rules.specs.Guides.{guide_causes, guide_line, guide_section, guide_sentence};

use vme_trace::Rule;

/// What a rule asks, and where to look when a board breaks it.
#[derive(Clone, Copy, Debug)]
pub struct Guide {
    /// The rule.
    pub rule: Rule,
    /// In which case it is broken.
    pub sentence: &'static str,
    /// The line that a break names.
    pub line: &'static str,
    /// The chapter of ANSI/IEEE Std 1014-1987 from which it comes, and `profile` where it is this project's own
    /// reading.
    pub section: &'static str,
    /// What is usually wrong on a board that breaks it.
    pub causes: &'static str,
}

const U1: Guide = Guide {
    rule: Rule::U1,
    sentence: "a control line is Unknown, at the end of judging",
    line: "that control line",
    section: "profile",
    causes: "two boards drive the line against each other; a net of a daisy chain that its board releases once the \
             bus was idle; a driver that becomes unknown where a state that isn't reset is used; $dumpoff",
};

const U2: Guide = Guide {
    rule: Rule::U2,
    sentence: "AS falls and a needed line of this cycle is Unknown",
    line: "the needed line",
    section: "chapter 2, Data Transfer Bus; profile",
    causes: "the master drives AS before its address, AM, LWORD or IACK; two masters drive the address at once; a \
             needed line that is bound to x",
};

const U3: Guide = Guide {
    rule: Rule::U3,
    sentence: "a transfer starts and WRITE is Unknown",
    line: "WRITE",
    section: "chapter 2, Data Transfer Bus; profile",
    causes: "the master drives a strobe before WRITE; two masters drive WRITE at once",
};

const U4: Guide = Guide {
    rule: Rule::U4,
    sentence: "a strobe falls in a write, no later than its answer, and a data line that the write moves is Unknown",
    line: "the data line",
    section: "chapter 2, Data Transfer Bus; profile",
    causes: "the master's data register isn't set before its strobes; two boards drive the data lines at once; a data \
             line that is bound to x",
};

const H1: Guide = Guide {
    rule: Rule::H1,
    sentence: "a transfer starts, and DTACK, or BERR, isn't High near",
    line: "the answer line that isn't High",
    section: "chapter 2, Data Transfer Bus",
    causes: "the master doesn't wait until the answer of its last transfer is gone; a slave or the bus timer that \
             releases its answer late, or never",
};

const H2: Guide = Guide {
    rule: Rule::H2,
    sentence: "a strobe rises inside a transfer, after its start, that has no answer so far",
    line: "the strobe that rises",
    section: "chapter 2, Data Transfer Bus",
    causes: "the master releases its strobes by a clock or a timer of its own, and not by the answer; a glitch on a \
             strobe; a reset in the middle of a transfer, where SYSRESET is not bound",
};

const H3: Guide = Guide {
    rule: Rule::H3,
    sentence: "a strobe falls inside a transfer, after its start and after its answer",
    line: "the strobe that falls",
    section: "chapter 2, Data Transfer Bus",
    causes: "the master drives its two strobes too far apart; the second half of an access is strobed before the first \
             one is over; a glitch on a strobe",
};

const H4: Guide = Guide {
    rule: Rule::H4,
    sentence: "an answer line falls outside any transfer",
    line: "the answer line that falls",
    section: "chapter 2, Data Transfer Bus",
    causes: "a slave that is too slow answers once the master has gone; the bus timer and a slow slave answer one \
             after the other; a slave that decodes the address without the strobes",
};

const H5: Guide = Guide {
    rule: Rule::H5,
    sentence: "an answer line falls in a transfer after its answer, or both answer lines fall at the answer",
    line: "the answer line that falls",
    section: "chapter 2, Data Transfer Bus; profile",
    causes: "two slaves decode the same address; the bus timer runs out while a slow slave answers; a glitch on an \
             answer line",
};

const H6: Guide = Guide {
    rule: Rule::H6,
    sentence: "an answer line rises, and no strobe rose at any instant from that line's last fall on, both instants \
               included",
    line: "the answer line that rises",
    section: "chapter 2, Data Transfer Bus",
    causes: "the slave releases its answer by a clock or a timer of its own, and not by the strobes; two slaves \
             answer and the first releases its line",
};

const H7: Guide = Guide {
    rule: Rule::H7,
    sentence: "AS rises while a transfer that started before is open and has no answer so far",
    line: "AS",
    section: "chapter 2, Data Transfer Bus",
    causes: "the master ends its cycle by a clock or a timer of its own, and not by the answer; a reset in the middle \
             of a cycle, where SYSRESET is not bound",
};

const H8: Guide = Guide {
    rule: Rule::H8,
    sentence: "a transfer is answered and AS isn't Low near",
    line: "the answer line that falls",
    section: "chapter 2, Data Transfer Bus",
    causes: "a slave that decodes the address without AS; a master that drives its strobes without AS, or AS long \
             after them",
};

const S1: Guide = Guide {
    rule: Rule::S1,
    sentence: "a needed line has an edge after its cycle's start, before the cycle's end and before any transfer's \
               answer since the start",
    line: "the needed line",
    section: "chapter 2, Data Transfer Bus",
    causes: "the master lets the next address through, or turns its drivers off, by its own clock and not by the \
             answer; an address latch that is open while AS is Low; two masters drive at once",
};

const S2: Guide = Guide {
    rule: Rule::S2,
    sentence: "WRITE has an edge after a transfer's start, before a strobe rises in it",
    line: "WRITE",
    section: "chapter 2, Data Transfer Bus",
    causes: "the master changes WRITE for its next access before the strobes are High; WRITE is released together \
             with the address, at the answer",
};

const S3: Guide = Guide {
    rule: Rule::S3,
    sentence: "a data line that a write moves has an edge after its start, before its answer and before a strobe rises \
               in it",
    line: "the data line with the edge",
    section: "chapter 2, Data Transfer Bus",
    causes: "the master drives its data after the strobe; the master lets its next data through before the answer; a \
             slave that drives the data lines in a write",
};

const C1: Guide = Guide {
    rule: Rule::C1,
    sentence: "a single cycle has a second answer and the two aren't a read, then a write; or a later answer",
    line: "the answer line that falls",
    section: "chapter 2, Data Transfer Bus",
    causes: "a block transfer with the address modifier code of a single one; AS stays Low between two cycles; a \
             read-modify-write that writes first",
};

const C2: Guide = Guide {
    rule: Rule::C2,
    sentence: "the direction of an answered transfer of a block cycle differs from the cycle's first",
    line: "the answer line that falls",
    section: "chapter 2, Data Transfer Bus",
    causes: "a read-modify-write with the address modifier code of a block transfer; AS stays Low between a block of \
             reads and one of writes",
};

const G1: Guide = Guide {
    rule: Rule::G1,
    sentence: "a slot's grant output falls and its input isn't Low near",
    line: "the net",
    section: "chapter 3, Data Transfer Bus Arbitration",
    causes: "a board drives its grant output without looking at its input; the grants of two levels, or of two slots, \
             are exchanged in the binding or on the backplane; a glitch",
};

const G2: Guide = Guide {
    rule: Rule::G2,
    sentence: "a slot's grant output rises and its input isn't High near",
    line: "the net",
    section: "chapter 3, Data Transfer Bus Arbitration",
    causes: "a board releases its grant output when its own request changes; a board that takes a grant that it has \
             passed on; a reset in the middle of a grant, where SYSRESET is not bound",
};

const G3: Guide = Guide {
    rule: Rule::G3,
    sentence: "two of BG0.0 to BG3.0 are Low, and one of these falls",
    line: "the net that falls",
    section: "chapter 3, Data Transfer Bus Arbitration",
    causes: "an arbiter that grants a second level before it has taken the first grant back; two boards that are both \
             the system controller",
};

const G4: Guide = Guide {
    rule: Rule::G4,
    sentence: "a grant net falls and BBSY isn't High near",
    line: "the net",
    section: "chapter 3, Data Transfer Bus Arbitration",
    causes: "an arbiter that grants while the bus is busy; a board that passes a grant on after another has taken it; \
             BBSY is driven late",
};

const G5: Guide = Guide {
    rule: Rule::G5,
    sentence: "BGn.0 falls, and BRn is Low at no instant from the last fall of any BGx.0 before (or the start) on, \
               both included",
    line: "the net that falls",
    section: "chapter 3, Data Transfer Bus Arbitration",
    causes: "an arbiter that grants without a request, or on the wrong level; a request line that wasn't recorded and \
             is bound to 1",
};

const B1: Guide = Guide {
    rule: Rule::B1,
    sentence: "BBSY falls and no BGn.0 is Low near",
    line: "BBSY",
    section: "chapter 3, Data Transfer Bus Arbitration",
    causes: "a master that takes the bus without a grant, or after the arbiter took the grant back; a grant chain that \
             wasn't recorded and is bound to 1",
};

const B2: Guide = Guide {
    rule: Rule::B2,
    sentence: "BBSY falls, and no BGn.0 fell after the previous fall of BBSY (or the start)",
    line: "BBSY",
    section: "chapter 3, Data Transfer Bus Arbitration",
    causes: "a master that takes the bus again by a grant that was used; two requesters take one grant; a glitch on \
             BBSY",
};

const B3: Guide = Guide {
    rule: Rule::B3,
    sentence: "AS falls and BBSY isn't Low near",
    line: "AS",
    section: "chapter 2, Data Transfer Bus",
    causes: "a master that drives AS before it has the bus, or after it has released BBSY; BBSY wasn't recorded and \
             is bound to 1",
};

const B4: Guide = Guide {
    rule: Rule::B4,
    sentence: "BBSY falls and the grant came past the last slot",
    line: "BBSY",
    section: "chapter 3, Data Transfer Bus Arbitration",
    causes: "the requester passes the grant on and takes the bus all the same; the binding has fewer slots than the \
             backplane",
};

const I1: Guide = Guide {
    rule: Rule::I1,
    sentence: "IA.k falls and the slot's input isn't Low near",
    line: "the net",
    section: "chapter 4, Priority Interrupt",
    causes: "a board drives its acknowledge output without looking at its input; IACK isn't brought to slot 1's input; \
             slots are exchanged in the binding",
};

const I2: Guide = Guide {
    rule: Rule::I2,
    sentence: "IA.k falls, and AS isn't Low near or neither strobe is Low near",
    line: "the net",
    section: "chapter 4, Priority Interrupt",
    causes: "a board passes its acknowledge input on at once, without waiting for AS and a strobe; a glitch on IACK \
             between two cycles",
};

const I3: Guide = Guide {
    rule: Rule::I3,
    sentence: "IA.k falls while AS stays Low, after a transfer of this cycle was answered by DTACK",
    line: "the net",
    section: "chapter 4, Priority Interrupt",
    causes: "an interrupter that answers and passes the acknowledge on as well; its request and its acknowledge input \
             are compared in a race; another board answers for it",
};

const I4: Guide = Guide {
    rule: Rule::I4,
    sentence: "an interrupt acknowledge's transfer that is answered is a write",
    line: "the answer line that falls",
    section: "chapter 4, Priority Interrupt; profile",
    causes: "the interrupt handler leaves WRITE Low from the cycle before; WRITE is bound to 0, or to its inverse",
};

const I5: Guide = Guide {
    rule: Rule::I5,
    sentence: "an interrupt acknowledge has a second answer",
    line: "the answer line that falls",
    section: "chapter 4, Priority Interrupt; profile",
    causes: "the interrupt handler reads its vector in two transfers of one cycle; AS stays Low between two \
             acknowledge cycles",
};

impl Guide {
    /// What this rule asks.
    pub fn of(rule: Rule) -> Guide
        ensures rule { result.rule ≡ rule }
        ensures sentence { result.sentence.now ≡ guide_sentence rule }
        ensures line { result.line.now ≡ guide_line rule }
        ensures section { result.section.now ≡ guide_section rule }
        ensures causes { result.causes.now ≡ guide_causes rule }
    {
        let guide: &'static Guide = match rule {
            Rule::U1 => &U1,
            Rule::U2 => &U2,
            Rule::U3 => &U3,
            Rule::U4 => &U4,
            Rule::H1 => &H1,
            Rule::H2 => &H2,
            Rule::H3 => &H3,
            Rule::H4 => &H4,
            Rule::H5 => &H5,
            Rule::H6 => &H6,
            Rule::H7 => &H7,
            Rule::H8 => &H8,
            Rule::S1 => &S1,
            Rule::S2 => &S2,
            Rule::S3 => &S3,
            Rule::C1 => &C1,
            Rule::C2 => &C2,
            Rule::G1 => &G1,
            Rule::G2 => &G2,
            Rule::G3 => &G3,
            Rule::G4 => &G4,
            Rule::G5 => &G5,
            Rule::B1 => &B1,
            Rule::B2 => &B2,
            Rule::B3 => &B3,
            Rule::B4 => &B4,
            Rule::I1 => &I1,
            Rule::I2 => &I2,
            Rule::I3 => &I3,
            Rule::I4 => &I4,
            Rule::I5 => &I5,
        };
        *guide
    }
}
