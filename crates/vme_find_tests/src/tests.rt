ghost use Rattle.vme_find.specs.Recordings.{AreSlots};

use memchr::memmem;
use std::alloc::{AllocError, Global};
use vcd_read::{FaultKind, VcdFault};
use vme_declarations::{
    DeclaredNames, DumpSurvey, EMPTY_HASH, Groups, SurveyedDump, VariableBit, dotted_path,
    group_of, has_scope, hash_of, scopes_have_path,
};
use vme_find::{FindFault, FoundBinding, write_binding};
use vme_line_names::find_lines;
use vme_proposal::{ProposedBinding, constants_report, propose_binding};
use vme_trace::Line;
use vme_variables::{time_scale, time_unit, variables_text};

/// A dump of one variable with a standard name, and of one with another name.
const DUMP: &str = "$timescale 1 ns $end\n$scope module bus $end\n$var wire 1 p as_n $end\n\
$var wire 4 q other [3:0] $end\n$upscope $end\n$enddefinitions $end\n#0 1p b1 q\n#10 0p\n";

/// The survey of a dump.
fn surveyed(alloc: Global, dump: &str) -> Result<SurveyedDump, VcdFault> {
    DumpSurvey::new().finish(alloc, dump.as_bytes())
}

/// The binding that is found for a survey, by `slots` and `scope`.
fn found_in(
    alloc: Global,
    survey: &SurveyedDump,
    slots: Option<u8>,
    scope: Option<&[u8]>,
) -> Option<FoundBinding>
    requires { AreSlots slots }
{
    write_binding(alloc, survey, slots, scope).ok()
}

/// The binding that is found for a dump, if there is one.
fn binding_of(
    alloc: Global,
    dump: &str,
    slots: Option<u8>,
    scope: Option<&[u8]>,
) -> Option<FoundBinding>
    requires { AreSlots slots }
{
    match surveyed(alloc, dump) {
        Ok(survey) => found_in(alloc, &survey, slots, scope),
        Err(_) => None,
    }
}

/// Whether `text` contains `part`.
fn has(text: &[u8], part: &str) -> bool {
    memmem::find(text, part.as_bytes()).is_some()
}

const VARIABLES: &str =
    "time scale 1ns\nlast time 10\nchanges bits variable\n      2     1 bus.as_n\n      1     4 bus.other[3:0]\n";

/// Whether the text of the variables of a dump is `wanted`.
fn lists(alloc: Global, dump: &str, wanted: &str) -> bool {
    match variables_text(alloc, dump.as_bytes()) {
        Ok(text) => text.as_bytes() == wanted.as_bytes(),
        Err(_) => false,
    }
}

/// Whether the text of the variables of a dump is `wanted`, or memory is refused.
fn lists_or_is_refused(alloc: Global, dump: &str, wanted: &str) -> bool {
    match variables_text(alloc, dump.as_bytes()) {
        Ok(text) => text.as_bytes() == wanted.as_bytes(),
        Err(fault) => fault.line == 0,
    }
}

#[test]
fn variables_are_listed(rt: HostRuntime) {
    assert!(rt; lists_or_is_refused(rt.alloc(), DUMP, VARIABLES));
}

/// Whether the scope at `place` has the path `path`.
fn has_path(alloc: Global, declared: &DeclaredNames, place: usize, path: &[u8]) -> bool {
    match declared.path_of(alloc, place) {
        Ok(found) => found.as_slice() == path,
        Err(_) => false,
    }
}

/// Whether `wanted` says of each scope whether its path is `path`.
fn has_scopes(alloc: Global, declared: &DeclaredNames, path: &[u8], wanted: &[bool]) -> bool {
    match scopes_have_path(alloc, declared, path) {
        Ok(found) => found.as_slice() == wanted,
        Err(_) => false,
    }
}

/// Whether the two variables of the dump are as they are declared, and the first alone moves.
fn are_declared(survey: &SurveyedDump) -> bool {
    let declared = survey.names();
    let levels = survey.levels();
    match declared.variables() {
        [strobe, other] => {
            declared.name_of(strobe) == b"as_n".as_slice()
                && declared.name_of(other) == b"other".as_slice()
                && levels.moves(strobe.net, 0)
                && !levels.moves(other.net, 0)
                && other.number_of_bit(0) == 3
                && strobe.number_of_bit(0) == 0
        }
        _ => false,
    }
}

/// Whether a survey is that of `DUMP`: its scopes, its variables, and which of them moves.
fn is_survey_of_dump(alloc: Global, survey: &SurveyedDump) -> bool {
    are_declared(survey)
        && survey.names().scopes().len() == 2
        && has_path(alloc, survey.names(), 1, b"bus")
        && has_scopes(alloc, survey.names(), b"bus", &[false, true])
}

/// Whether the dump is surveyed right, or memory is refused.
fn is_surveyed(alloc: Global) -> bool {
    match surveyed(alloc, DUMP) {
        Ok(survey) => is_survey_of_dump(alloc, &survey),
        Err(fault) => fault.line == 0,
    }
}

#[test]
fn declarations_are_read(rt: HostRuntime) {
    assert!(rt; is_surveyed(rt.alloc()));
}

/// Whether the paths of the variables in the scope `path` begin with `wanted`.
fn has_front(alloc: Global, path: &[u8], wanted: &[u8]) -> bool {
    match dotted_path(alloc, path) {
        Ok(front) => front.as_slice() == wanted,
        Err(_) => false,
    }
}

/// Whether of these paths the first alone is a scope.
fn is_first_a_scope(alloc: Global, survey: &SurveyedDump) -> bool {
    matches!(has_scope(alloc, survey, b"bus"), Ok(true))
        && matches!(has_scope(alloc, survey, b"bu"), Ok(false))
        && matches!(has_scope(alloc, survey, b"bus.as_n"), Ok(false))
}

/// Whether the scope of the dump is found.
fn is_scope_found(alloc: Global) -> bool {
    match surveyed(alloc, DUMP) {
        Ok(survey) => is_first_a_scope(alloc, &survey),
        Err(_) => false,
    }
}

#[test]
fn a_scope_is_looked_for(rt: HostRuntime) {
    assert!(rt; has_front(rt.alloc(), b"bus", b"bus."));
    assert!(rt; is_scope_found(rt.alloc()));
}

/// Whether this is the binding that is proposed for the dump.
fn is_proposed(proposed: &ProposedBinding) -> bool {
    has(proposed.text.as_bytes(), "\nAS = bus.as_n\n")
        && proposed
            .report
            .as_bytes()
            .starts_with(b"vmecheck: bound 1 of 19 groups in scope bus, 2 slots")
        && !proposed.is_bus
}

/// Whether AS is found and moves, DS0 isn't found, and the binding is proposed.
fn are_lines_found(alloc: Global, survey: &SurveyedDump) -> Result<bool, AllocError> {
    let found = find_lines(alloc, survey.names(), survey.levels(), None)?;
    let first = VariableBit {
        variable: 0,
        place: 0,
    };
    let is_found = found.bit_of_line(Line::AS) == Some(first)
        && found.moves(Line::AS)
        && found.bit_of_line(Line::DS0).is_none();
    let proposed = propose_binding(alloc, survey.names(), found, Some(2))?;
    Ok(is_found && is_proposed(&proposed))
}

/// Whether the lines of `DUMP` are found and proposed, or memory is refused.
fn are_lines_found_or_refused(alloc: Global) -> bool {
    match surveyed(alloc, DUMP) {
        Ok(survey) => matches!(are_lines_found(alloc, &survey), Ok(true)),
        Err(fault) => fault.line == 0,
    }
}

/// Whether the report says that nothing is bound.
fn are_constants_told(alloc: Global) -> bool {
    match constants_report(alloc) {
        Ok(told) => told
            .as_bytes()
            .starts_with(b"vmecheck: bound 0 of 19 groups: "),
        Err(_) => false,
    }
}

#[test]
fn lines_are_found_and_proposed(rt: HostRuntime) {
    assert!(rt; are_lines_found_or_refused(rt.alloc()));
    assert!(rt; are_constants_told(rt.alloc()));
}

/// The value that the authors of the hash publish for the letter a.
#[test]
fn a_letter_has_its_published_hash(rt: HostRuntime) {
    assert!(rt; hash_of(EMPTY_HASH, b"a") == 0xaf63_dc4c_8601_ec8c);
}

/// Whether the binding of the dump begins with its scope, its slots and AS, and isn't that of a bus.
fn is_found_by_its_name(alloc: Global) -> bool {
    let head =
        b"# Found by the names in the scope bus: look each line over.\nslots 2\nAS = bus.as_n\n";
    match binding_of(alloc, DUMP, Some(2), None) {
        Some(found) => found.text.as_bytes().starts_with(head) && !found.is_bus,
        None => false,
    }
}

#[test]
fn a_variable_is_found_by_its_name(rt: HostRuntime) {
    assert!(rt; is_found_by_its_name(rt.alloc()));
}

/// Whether the binding of a survey begins with a comment that names the scope bus, or memory is refused.
fn is_written_or_refused(alloc: Global, survey: &SurveyedDump) -> bool {
    match write_binding(alloc, survey, Some(2), Some(b"bus")) {
        Ok(found) => found
            .text
            .as_bytes()
            .starts_with(b"# Found by the names in the scope bus"),
        Err(fault) => fault == FindFault::Memory,
    }
}

/// Whether the binding of `DUMP` begins with a comment that names the scope bus, or memory is refused.
fn is_found_or_refused(alloc: Global) -> bool {
    match surveyed(alloc, DUMP) {
        Ok(survey) => is_written_or_refused(alloc, &survey),
        Err(fault) => fault.line == 0,
    }
}

/// The binding of `DUMP`, or want of memory and no other fault: lines that could not be looked for aren't bound to
/// constants.
#[test]
fn each_growth_fails_once(rt: HostRuntime) {
    assert!(rt; is_found_or_refused(rt.alloc()));
}

/// Whether the binding that is found for a dump contains `part`.
fn binding_has(alloc: Global, dump: &str, part: &str) -> bool {
    match binding_of(alloc, dump, None, None) {
        Some(found) => has(found.text.as_bytes(), part),
        None => false,
    }
}

/// Whether the binding that is found in the scope `path` of a dump contains `part`.
fn binding_in_has(alloc: Global, dump: &str, path: &str, part: &str) -> bool {
    match binding_of(alloc, dump, Some(1), Some(path.as_bytes())) {
        Some(found) => has(found.text.as_bytes(), part),
        None => false,
    }
}

/// Whether the report of the binding that is found for a dump is `told`, and its `is_bus` is as given.
fn binding_is_told(alloc: Global, dump: &str, told: &str, is_bus: bool) -> bool {
    match binding_of(alloc, dump, None, None) {
        Some(found) => found.report.as_bytes() == told.as_bytes() && found.is_bus == is_bus,
        None => false,
    }
}

/// A handshake, the address modifier without its upper bits, and BBSY, but no grant.
const HANDSHAKE: &str = "$scope module bus $end\n$var wire 1 a AS $end\n$var wire 1 b DS0 $end\n\
$var wire 1 c DTACK $end\n$var wire 1 d AM0 $end\n$var wire 1 e BBSY $end\n\
$upscope $end\n$enddefinitions $end\n#0 1a 1b 1c 1d 1e\n#5 0a\n";

#[test]
fn what_is_bound_is_told(rt: HostRuntime) {
    let told =
        "vmecheck: bound 3 of 19 groups in scope bus, 1 slot; not found: DS1 BERR IACK LWORD WRITE A D \
SYSRESET BR BG0 BG1 BG2 BG3 IA; in part: AM; found, but bound to constants: BBSY\n";
    assert!(rt; binding_is_told(rt.alloc(), HANDSHAKE, told, true));
}

#[test]
fn a_dump_without_a_bus_is_told(rt: HostRuntime) {
    let clock = "$var wire 1 p clock $end\n$enddefinitions $end\n#0 1p\n";
    let told =
        "vmecheck: bound 0 of 19 groups: no variable of the dump is named as a line of a VMEbus: bind the \
lines by hand, `vmecheck variables` lists the variables\n";
    assert!(rt; binding_is_told(rt.alloc(), clock, told, false));
    let still = "$var wire 1 a AS $end\n$var wire 1 b DS1 $end\n$var wire 1 c DTACK $end\n\
$enddefinitions $end\n#0 1a 1b 1c\n#5 0c\n";
    let told =
        "vmecheck: bound 3 of 19 groups outside of all scopes, 1 slot; not found: DS0 BERR IACK LWORD WRITE \
BBSY AM A D SYSRESET BR BG0 BG1 BG2 BG3 IA; AS never moves in the dump, so no cycle is judged\n";
    assert!(rt; binding_is_told(rt.alloc(), still, told, false));
}

#[test]
fn an_escaped_name_is_found(rt: HostRuntime) {
    let dump =
        "$scope module tb $end\n$var reg 1 p \\AS* $end\n$upscope $end\n$enddefinitions $end\n#0 1p\n";
    assert!(rt; binding_has(rt.alloc(), dump, "\nAS = tb.\\AS*\n"));
}

/// A dump of two bits under one path, and of two variables with the same path.
const TWICE: &str =
    "$scope module bench $end\n$var wire 1 a AM [5] $end\n$var wire 1 b AM [4] $end\n\
$var wire 1 c AS $end\n$var wire 1 d AS $end\n$upscope $end\n$enddefinitions $end\n#0 1a 1b 1c 0d\n";

/// Texts that the binding of `TWICE` contains.
static TWICE_BOUND: [&str; 3] = [
    "# Found by the names in the scope bench: look each line over.\nslots 1\n\
# AS was found, but the dump has different variables of the path bench.AS, which no binding tells apart: ",
    "\nAS = 1\n",
    "\nAM5 = bench.AM[5]\nAM4 = bench.AM[4]\nAM3 = 0\nAM2 = 0\nAM1 = 0\nAM0 = 0\n",
];

#[test]
fn an_ambiguous_path_alone_is_left_out(rt: HostRuntime) {
    for part in TWICE_BOUND.iter() {
        assert!(rt; binding_has(rt.alloc(), TWICE, part), "{part}");
    }
}

/// A dump of a bus of 16 data lines, and of a flip-flop whose input is called D.
const DATA: &str =
    "$scope module bus $end\n$var wire 1 p AS $end\n$var wire 16 q data [15:0] $end\n\
$upscope $end\n$scope module latch $end\n$var wire 1 r D $end\n$upscope $end\n$enddefinitions $end\n#0 1p\n";

/// What is said of data lines that aren't found.
const DATA_LEFT_OUT: &str = "# D wasn't found and is left out: ";

/// Dumps, and a text that the binding of each contains.
static DATA_BOUND: [(&str, &str); 6] = [
    (DATA, "\nD16 = 1\nD15 = bus.data[15]\n"),
    (DATA, "\nD00 = bus.data[0]\n"),
    (DUMP, DATA_LEFT_OUT),
    (
        "$var wire 32 d D [31:0] $end\n$enddefinitions $end\n#0 b0 d\n",
        "\nD = D\n",
    ),
    (
        "$var wire 1 p AS $end\n$var wire 1 d D $end\n$enddefinitions $end\n#0 1p\n",
        DATA_LEFT_OUT,
    ),
    (
        "$var wire 1 p AS $end\n$var wire 1 d D07 $end\n$enddefinitions $end\n#0 1p\n",
        "\nD07 = D07\n",
    ),
];

#[test]
fn data_lines_are_found(rt: HostRuntime) {
    for (dump, part) in DATA_BOUND.iter() {
        assert!(rt; binding_has(rt.alloc(), dump, part), "{part} of {dump}");
    }
}

/// Whether the text of the variables of a dump begins with `front`.
fn lists_first(alloc: Global, dump: &str, front: &[u8]) -> bool {
    match variables_text(alloc, dump.as_bytes()) {
        Ok(text) => text.as_bytes().starts_with(front),
        Err(_) => false,
    }
}

#[test]
fn a_dump_of_no_line_is_told(rt: HostRuntime) {
    let dump = "$var wire 1 p clock $end\n$enddefinitions $end\n#0 1p\n";
    assert!(rt; binding_has(rt.alloc(), dump, "# NOTHING IS BOUND: "));
    assert!(rt; lists_first(rt.alloc(), dump, b"time scale none\nlast time 0\n"));
}

/// Whether a dump has this time scale.
fn has_scale(alloc: Global, dump: &str, scale: &str) -> bool {
    match time_scale(alloc, dump.as_bytes()) {
        Ok(found) => found.as_bytes() == scale.as_bytes(),
        Err(_) => false,
    }
}

/// Whether the time scale of a dump has `units` units.
fn has_unit(alloc: Global, dump: &str, units: u64) -> bool {
    match time_unit(alloc, dump.as_bytes()) {
        Ok(found) => found == units,
        Err(_) => false,
    }
}

/// Dumps, and the time scale of each and the number of units in it.
static SCALES: [(&str, &str, u64); 3] = [
    ("$timescale 10 ns $end\n$enddefinitions $end\n", "10ns", 10),
    (
        "$comment 7 $end\n$timescale\n\t100us\n$end\n$enddefinitions $end\n",
        "100us",
        100,
    ),
    ("$enddefinitions $end\n", "", 1),
];

#[test]
fn a_time_stands_for_units(rt: HostRuntime) {
    assert!(rt; has_unit(rt.alloc(), DUMP, 1));
    for (dump, scale, units) in SCALES.iter() {
        assert!(rt;
            has_scale(rt.alloc(), dump, scale) && has_unit(rt.alloc(), dump, *units),
            "{dump}"
        );
    }
}

/// Dumps with and without SYSRESET, and a text that the binding of each contains.
static RESET_BOUND: [(&str, &str); 3] = [
    (
        "$var wire 1 p AS $end\n$var wire 1 r SYSRESET_n $end\n$enddefinitions $end\n#0 1p 1r\n",
        "\nSYSRESET = SYSRESET_n\n",
    ),
    (
        "$var wire 1 p AS $end\n$var wire 1 r sysrst $end\n$enddefinitions $end\n#0 1p 1r\n",
        "\nSYSRESET = sysrst\n",
    ),
    (DUMP, "\n# SYSRESET wasn't found and is left out: "),
];

#[test]
fn the_system_reset_is_found_or_left_out(rt: HostRuntime) {
    for (dump, part) in RESET_BOUND.iter() {
        assert!(rt; binding_has(rt.alloc(), dump, part), "{part}");
    }
}

/// The end of a dump in which AS, a strobe and DTACK move.
const CYCLE: &str =
    "$enddefinitions $end\n#0 1p 1q 1r\n#10 0p\n#20 0q\n#30 0r\n#40 1p 1q\n#50 1r\n";

/// `definitions` and a cycle after them.
fn with_cycle(alloc: Global, definitions: &str) -> Result<String, AllocError> {
    let mut dump = String::from_str(alloc, definitions)?;
    dump.push_str(CYCLE)?;
    Ok(dump)
}

/// Whether the binding that is found for `definitions` with a cycle after them contains `part`.
fn cycle_has(alloc: Global, definitions: &str, part: &str) -> bool {
    match with_cycle(alloc, definitions) {
        Ok(dump) => binding_has(alloc, dump.as_str(), part),
        Err(_) => false,
    }
}

/// The first text of `cycles` that the binding for its definitions doesn't contain.
fn first_unbound(alloc: Global, cycles: &[(&'static str, &'static str)]) -> Option<&'static str> {
    for (definitions, part) in cycles {
        if !cycle_has(alloc, definitions, part) {
            return Some(*part);
        }
    }
    None
}

/// Definitions, and a text that the binding of each with a cycle contains.
static NAMED: [(&str, &str); 4] = [
    (
        "$var wire 1 p VME_AS_n $end $var wire 1 q VME_DS0_n $end $var wire 1 r VME_DTACK_n $end\n",
        "\nAS = VME_AS_n\nDS0 = VME_DS0_n\n",
    ),
    (
        "$var wire 1 p XXAS $end $var wire 1 q XXDS0 $end $var wire 1 r XXDTACK $end\n",
        "\nDTACK = XXDTACK\n",
    ),
    (
        "$var wire 1 p i_as $end $var wire 1 q i_ds0 $end $var wire 1 r i_dtack $end\n",
        "\nDTACK = i_dtack\n",
    ),
    (
        "$var wire 1 p as $end $var wire 1 q ds0 $end $var wire 1 r dtack $end $var wire 4 b bg[3] [3:0] $end\n\
$var wire 1 y bbsy $end\n",
        "\nBBSY = 0\n",
    ),
];

#[test]
fn names_are_found_behind_a_text_and_before_another(rt: HostRuntime) {
    let unbound = first_unbound(rt.alloc(), &NAMED);
    assert!(rt; unbound.is_none(), "{}", unbound.unwrap_or(""));
}

/// Outputs of a board, each a single net; most names have a number at the end. No line is found by two of them.
const OUTPUTS: &str =
    "$var wire 1 p o_as $end $var wire 1 q o_ds_0 $end $var wire 1 r o_dtack $end $var wire 1 s o_ds_1 $end\n\
$var wire 1 t o_br_3 $end $var wire 1 u o_bg3_0 $end $var wire 1 v o_d_7 $end $var wire 1 w o_am_0 $end\n\
$var wire 1 x o_iack_chain1 $end\n";

/// An output and an input of a board, by each of which DS0 is found.
const OUTPUT_AND_INPUT: &str =
    "$var wire 1 p as $end $var wire 1 q i_ds_0 $end $var wire 1 r dtack $end $var wire 1 s o_ds_0 $end\n";

/// The grant that a board gets, and the one that it passes on, which is an output. No line is found by both.
const IN_AND_OUT: &str =
    "$var wire 1 p as $end $var wire 1 q bbsy $end $var wire 1 r bg3_in $end $var wire 1 o bg3_out $end\n";

/// The same of names with a number at the end, which belongs to the style.
const SECOND_IN_AND_OUT: &str =
    "$var wire 1 p as_2 $end $var wire 1 q bbsy_2 $end $var wire 1 r bg3_in_2 $end $var wire 1 o bg3_out_2 $end\n";

/// Vectors of the grants that boards get and pass on, by each of which the chain is found.
const VECTORS_IN_AND_OUT: &str =
    "$var wire 1 p as $end $var wire 1 q bbsy $end $var wire 4 r bg3_in [3:0] $end $var wire 4 o bg3_out [3:0] $end\n";

/// Definitions of outputs, and a text that the binding of each with a cycle contains.
static OUTPUTS_BOUND: [(&str, &str); 5] = [
    (
        OUTPUTS,
        "\nAS = o_as\nDS0 = o_ds_0\nDS1 = o_ds_1\nDTACK = o_dtack\n",
    ),
    (OUTPUTS, "\nAM0 = o_am_0\n"),
    (OUTPUTS, "\nD07 = o_d_7\n"),
    (
        OUTPUT_AND_INPUT,
        "\n# DS0 was found as an output of a board too: ",
    ),
    (OUTPUT_AND_INPUT, "\nDS0 = i_ds_0\n"),
];

/// Whether exactly the groups `wanted` are found as outputs of a board too, for `definitions` and a cycle after them.
fn doubles(alloc: Global, definitions: &str, wanted: Groups) -> Result<bool, AllocError> {
    let dump = with_cycle(alloc, definitions)?;
    match surveyed(alloc, dump.as_str()) {
        Ok(survey) => {
            let found = find_lines(alloc, survey.names(), survey.levels(), None)?;
            Ok(found.doubled == wanted)
        }
        Err(_) => Ok(false),
    }
}

#[test]
fn an_output_is_doubled_by_another_variable_alone(rt: HostRuntime) {
    assert!(rt; matches!(doubles(rt.alloc(), OUTPUTS, 0), Ok(true)));
    assert!(rt;
        matches!(
            doubles(rt.alloc(), OUTPUT_AND_INPUT, group_of(Line::DS0)),
            Ok(true)
        )
    );
    assert!(rt; matches!(doubles(rt.alloc(), IN_AND_OUT, 0), Ok(true)));
    assert!(rt; matches!(doubles(rt.alloc(), SECOND_IN_AND_OUT, 0), Ok(true)));
    let chain = group_of(Line::grant(3, 0));
    assert!(rt; matches!(doubles(rt.alloc(), VECTORS_IN_AND_OUT, chain), Ok(true)));
    let unbound = first_unbound(rt.alloc(), &OUTPUTS_BOUND);
    assert!(rt; unbound.is_none(), "{}", unbound.unwrap_or(""));
}

/// The grants that a board gets and passes on, of one bit each, with the level and the direction in either order.
const IN_AND_OUT_OF_EACH_LEVEL: &str =
    "$var wire 1 p as $end $var wire 1 q bbsy $end $var wire 1 r bg3_in $end $var wire 1 o bg3_out $end\n\
$var wire 1 a bg2out_n $end $var wire 1 b bg2in_n $end $var wire 1 c bg_in_1 $end $var wire 1 d bg_out_1 $end\n\
$var wire 1 e busgnt_in0 $end $var wire 1 f busgnt_out0 $end\n";

/// A grant that a board gets, and one of another level that it passes on.
const IN_OR_OUT: &str =
    "$var wire 1 p as $end $var wire 1 q bbsy $end $var wire 1 r bg2_in $end $var wire 1 o bg3_out $end\n";

/// A chain as a vector, two as the bits of one, and one as nets with numbers.
const CHAINS_IN_OR_OUT: &str =
    "$var wire 1 p as $end $var wire 1 q bbsy $end $var wire 3 r bg0_in [2:0] $end\n\
$var wire 1 a bg1_in [2] $end $var wire 1 b bg1_in [1] $end $var wire 1 c bg1_in [0] $end\n\
$var wire 1 d bg2_out [2] $end $var wire 1 e bg2_out [1] $end $var wire 1 f bg2_out [0] $end\n\
$var wire 1 g bg3_in_0 $end $var wire 1 h bg3_in_1 $end $var wire 1 i bg3out2 $end\n";

/// Definitions of grants that are got and passed on, and a text that the binding of each with a cycle contains. A
/// vector without a level is no grant.
static GRANTS: [(&str, &str); 6] = [
    (
        IN_AND_OUT_OF_EACH_LEVEL,
        "\nBG0.1 = busgnt_out0\nBG0.0 = busgnt_in0\nBG1.1 = bg_out_1\nBG1.0 = bg_in_1\nBG2.1 = bg2out_n\n\
BG2.0 = bg2in_n\nBG3.1 = bg3_out\nBG3.0 = bg3_in\n",
    ),
    (
        SECOND_IN_AND_OUT,
        "\nBG2 = 1\nBG3.1 = bg3_out_2\nBG3.0 = bg3_in_2\n",
    ),
    (IN_OR_OUT, "\nBG2.1 = 1\nBG2.0 = bg2_in\n"),
    (IN_OR_OUT, "\nBG3.1 = bg3_out\nBG3.0 = 1\n"),
    (
        CHAINS_IN_OR_OUT,
        "\nBG0 = bg0_in\nBG1.2 = bg1_in[2]\nBG1.1 = bg1_in[1]\nBG1.0 = bg1_in[0]\nBG2.2 = bg2_out[2]\n\
BG2.1 = bg2_out[1]\nBG2.0 = bg2_out[0]\nBG3.2 = bg3out2\nBG3.1 = bg3_in_1\nBG3.0 = bg3_in_0\n",
    ),
    (
        "$var wire 1 p as $end $var wire 1 q bbsy $end $var wire 4 r bg [3:0] $end\n",
        "\nBG0 = 1\nBG1 = 1\nBG2 = 1\nBG3 = 1\n",
    ),
];

#[test]
fn a_grant_of_one_bit_is_one_net(rt: HostRuntime) {
    let unbound = first_unbound(rt.alloc(), &GRANTS);
    assert!(rt; unbound.is_none(), "{}", unbound.unwrap_or(""));
}

/// Definitions with nets of the acknowledge chain, and a text that the binding of each with a cycle contains. Number 0
/// is IACK where the word stands for the chain, and no line where it stands for the slots. IACKOUT* isn't IACK.
static CHAINS: [(&str, &str); 9] = [
    (
        "$var wire 1 p as $end $var wire 1 q ds0 $end $var wire 1 r dtack $end $var wire 4 i ia [3:0] $end\n\
$var wire 1 k iack $end\n",
        "\nIACK = iack\n",
    ),
    (
        "$var wire 1 p as $end $var wire 1 q ds0 $end $var wire 1 r dtack $end $var wire 4 i ia [3:0] $end\n\
$var wire 1 k iack $end\n",
        "\nIA = ia[3:1]\n",
    ),
    (
        "$var wire 1 p as $end $var wire 1 q ds0 $end $var wire 1 r dtack $end $var wire 1 i ia_0 $end\n",
        "\nIACK = 1\n",
    ),
    (
        "$var wire 1 p as $end $var wire 1 q ds0 $end $var wire 1 r dtack $end $var wire 2 i iack [1:0] $end\n",
        "\nIACK = iack[0]\n",
    ),
    (
        "$var wire 1 p as $end $var wire 1 q ds0 $end $var wire 1 r dtack $end $var wire 1 i acknowledge_0 $end\n",
        "\nIACK = acknowledge_0\n",
    ),
    (
        "$var wire 1 p as $end $var wire 1 q ds0 $end $var wire 1 r dtack $end $var wire 1 i iackout0 $end\n",
        "\nIACK = 1\n",
    ),
    (
        "$var wire 1 p as $end $var wire 1 q ds0 $end $var wire 1 r dtack $end $var wire 1 i iack_out $end\n",
        "\nIACK = 1\n",
    ),
    (
        "$var wire 1 p as_n $end $var wire 1 q ds0_n $end $var wire 1 r dtack_n $end $var wire 1 i iackout_n $end\n",
        "\nIACK = 1\n",
    ),
    (
        "$var wire 1 p as $end $var wire 1 q ds0 $end $var wire 1 r dtack $end $var wire 4 i iack_out [3:0] $end\n",
        "\nIACK = 1\n",
    ),
];

#[test]
fn the_acknowledge_chain_is_numbered_by_its_word(rt: HostRuntime) {
    let unbound = first_unbound(rt.alloc(), &CHAINS);
    assert!(rt; unbound.is_none(), "{}", unbound.unwrap_or(""));
}

/// A bus, and in a scope below it a processor with more bits and fewer lines.
const PROCESSOR: &str =
    "$scope module bus $end\n$var wire 1 p AS $end\n$var wire 1 q DS0 $end\n$var wire 1 r DTACK $end\n\
$scope module cpu $end\n$var wire 32 a addr [31:0] $end\n$var wire 1 b as $end\n$upscope $end\n$upscope $end\n";

/// Texts that the binding of `PROCESSOR` contains.
static COUNTED: [(&str, &str); 2] = [
    (PROCESSOR, "in the scope bus: "),
    (PROCESSOR, "\nDS0 = bus.DS0\n"),
];

#[test]
fn names_are_counted_and_not_bits(rt: HostRuntime) {
    let unbound = first_unbound(rt.alloc(), &COUNTED);
    assert!(rt; unbound.is_none(), "{}", unbound.unwrap_or(""));
}

/// A bus with a grant.
const GRANTED: &str =
    "$var wire 1 p AS $end $var wire 1 q BBSY $end $var wire 2 r BG3 [1:0] $end $var wire 23 a A [23:1] $end\n";

/// Definitions in which lines aren't found, and a text that the binding of each with a cycle contains.
static CONSTANTS_BOUND: [(&str, &str); 4] = [
    (PROCESSOR, "\nBBSY = 0\n"),
    (
        PROCESSOR,
        "\nAM5 = 0\nAM4 = 1\nAM3 = 0\nAM2 = 0\nAM1 = 0\nAM0 = 0\n",
    ),
    (GRANTED, "\nBBSY = BBSY\n"),
    (GRANTED, "\nBR3 = 0\nBR2 = 1\n"),
];

#[test]
fn what_is_not_found_fits_what_is(rt: HostRuntime) {
    let unbound = first_unbound(rt.alloc(), &CONSTANTS_BOUND);
    assert!(rt; unbound.is_none(), "{}", unbound.unwrap_or(""));
}

/// Two boards on a bus, of which the first has more of its lines, and a scope that has none.
const BOARDS: &str =
    "$scope module top $end\n$var wire 1 e BBSY $end\n$scope module one $end\n$var wire 1 a AS $end\n\
$var wire 1 b DS0 $end\n$var wire 1 c DTACK $end\n$upscope $end\n$scope module two $end\n$var wire 1 d AS $end\n\
$upscope $end\n$scope module clock $end\n$var wire 1 f tick $end\n$upscope $end\n$upscope $end\n$enddefinitions $end\n\
#0 1a 1b 1c 1d 1e 1f\n#5 0a 0d\n#6 0b\n";

/// Scopes, and a text that the binding in each contains.
static SCOPED: [(&str, &str); 5] = [
    ("top.two", "# Found by the names in the scope top.two: "),
    ("top.two", "\nAS = top.two.AS\n# DS0 wasn't found: "),
    ("top", "\nAS = 1\n"),
    (
        "top.clock",
        "# NOTHING IS BOUND: no variable in scope top.clock was found ",
    ),
    (
        "",
        "# NOTHING IS BOUND: no variable outside of all scopes was found ",
    ),
];

#[test]
fn the_scope_that_is_named_is_bound(rt: HostRuntime) {
    assert!(rt; binding_has(rt.alloc(), BOARDS, "\nAS = top.one.AS\nDS0 = top.one.DS0\n"));
    for (scope, part) in SCOPED.iter() {
        assert!(rt; binding_in_has(rt.alloc(), BOARDS, scope, part), "{part}");
    }
}

/// A bus whose variables have a dot in their names, and no scope of its own.
const DOTTED: &str =
    "$scope module top $end\n$var wire 1 a bus.AS $end\n$var wire 1 b bus.DS0 $end\n\
$var wire 1 c bus.DTACK $end\n$upscope $end\n$enddefinitions $end\n#0 1a 1b 1c\n#5 0a\n#6 0b\n";

#[test]
fn a_dot_in_a_name_makes_no_scope(rt: HostRuntime) {
    let nothing = "# NOTHING IS BOUND: no variable in scope top.bus was found ";
    assert!(rt; binding_in_has(rt.alloc(), DOTTED, "top.bus", nothing));
    assert!(rt; binding_in_has(rt.alloc(), DOTTED, "top", "\nAS = top.bus.AS\n"));
}

/// A dump of a bus whose variables have a dot in their names, and of a variable that has the path of one of these, in a
/// scope within.
const ONE_PATH: &str =
    "$scope module top $end\n$var wire 1 a bus.AS $end\n$var wire 1 b bus.DS0 $end\n\
$var wire 1 c bus.DTACK $end\n$scope module bus $end\n$var wire 1 d AS $end\n$upscope $end\n$upscope $end\n\
$enddefinitions $end\n#0 1a 1b 1c 0d\n#5 0a\n#6 0b\n";

/// Texts that the binding of `ONE_PATH` in the scope top contains.
static ONE_PATH_BOUND: [&str; 2] = [
    "# AS was found, but the dump has different variables of the path top.bus.AS, which no binding tells apart: ",
    "\nDS0 = top.bus.DS0\n",
];

#[test]
fn a_path_of_variables_in_two_scopes_alone_is_left_out(rt: HostRuntime) {
    for part in ONE_PATH_BOUND.iter() {
        assert!(rt; binding_in_has(rt.alloc(), ONE_PATH, "top", part), "{part}");
    }
}

/// Paths of no scope.
static NO_SCOPES: [&str; 5] = ["tw", "top.tw", "two", "top.two.AS", "top."];

/// Whether each path of `NO_SCOPES` is refused as one of no scope.
fn are_no_scopes(alloc: Global, survey: &SurveyedDump) -> bool {
    let mut are_told = true;
    for path in NO_SCOPES.iter() {
        are_told &= match write_binding(alloc, survey, None, Some(path.as_bytes())) {
            Err(fault) => fault == FindFault::NoSuchScope,
            Ok(_) => false,
        };
    }
    are_told
}

/// Whether each path of `NO_SCOPES` is refused as one of no scope of the two boards.
fn is_no_scope_told(alloc: Global) -> bool {
    match surveyed(alloc, BOARDS) {
        Ok(survey) => are_no_scopes(alloc, &survey),
        Err(_) => false,
    }
}

#[test]
fn a_scope_that_is_not_there_is_told(rt: HostRuntime) {
    assert!(rt; is_no_scope_told(rt.alloc()));
}

/// A dump with a change of a code that no variable has.
const FAULTY: &str = "$var wire 1 a AS $end\n$enddefinitions $end\n#0 1a\n#1 1q\n#2 0a\n";

const UNDECLARED: VcdFault = VcdFault {
    line: 4,
    kind: FaultKind::UndeclaredCode,
};

/// Whether a survey of the first bytes of `DUMP`, and then of the others, is that of the whole.
fn is_surveyed_in_pieces(alloc: Global, cut: usize) -> Result<bool, AllocError> {
    let bytes = DUMP.as_bytes();
    let (survey, count) = DumpSurvey::new().take(alloc, bytes.get(..cut).unwrap_or(b""))?;
    match survey.finish(alloc, bytes.get(count..).unwrap_or(b"")) {
        Ok(survey) => Ok(is_survey_of_dump(alloc, &survey)),
        Err(_) => Ok(false),
    }
}

/// Whether both the first bytes of a dump and all of it have the undeclared code as their fault. If `is_met` is false
/// the first bytes may have none.
fn fails_in_pieces(
    alloc: Global,
    dump: &str,
    cut: usize,
    is_met: bool,
) -> Result<bool, AllocError> {
    let bytes = dump.as_bytes();
    let (survey, count) = DumpSurvey::new().take(alloc, bytes.get(..cut).unwrap_or(b""))?;
    let first = match survey.fault() {
        Some(fault) => fault == UNDECLARED,
        None => !is_met,
    };
    match survey.finish(alloc, bytes.get(count..).unwrap_or(b"")) {
        Ok(_) => Ok(false),
        Err(fault) => Ok(first && fault == UNDECLARED),
    }
}

#[test]
fn pieces_are_surveyed_as_the_whole(rt: HostRuntime) {
    for cut in 0..DUMP.len() {
        assert!(rt;
            matches!(is_surveyed_in_pieces(rt.alloc(), cut), Ok(true)),
            "{cut}"
        );
    }
    for cut in 0..FAULTY.len() {
        assert!(rt;
            matches!(fails_in_pieces(rt.alloc(), FAULTY, cut, false), Ok(true)),
            "{cut}"
        );
    }
    assert!(rt;
        matches!(
            fails_in_pieces(rt.alloc(), FAULTY, FAULTY.len(), true),
            Ok(true)
        )
    );
}

/// Names with characters that turn the direction of a line and control a terminal.
const STEERING: &str =
    "$scope module \u{202e}bus $end\n$var wire 1 p AS $end\n$var wire 1 q a\x1b[31m $end\n$upscope $end\n\
$enddefinitions $end\n#0 1p 1q\n#5 0p\n";

/// The text of the variables of `STEERING`.
const STEERING_SHOWN: &str =
    "time scale none\nlast time 5\nchanges bits variable\n      2     1 \\xE2\\x80\\xAEbus.AS\n\
\x20     1     1 \\xE2\\x80\\xAEbus.a\\x1B[31m\n";

/// Texts that the binding of `STEERING` contains. A path is bound by its bytes.
static STEERING_BOUND: [&str; 2] = [
    "# Found by the names in the scope \\xE2\\x80\\xAEbus: look",
    "\nAS = \u{202e}bus.AS\n",
];

/// Whether the report of the binding of `STEERING` contains `part`.
fn steering_is_told(alloc: Global, part: &str) -> bool {
    match binding_of(alloc, STEERING, None, None) {
        Some(found) => has(found.report.as_bytes(), part),
        None => false,
    }
}

#[test]
fn names_are_shown_by_visible_characters(rt: HostRuntime) {
    assert!(rt; lists(rt.alloc(), STEERING, STEERING_SHOWN));
    for part in STEERING_BOUND.iter() {
        assert!(rt; binding_has(rt.alloc(), STEERING, part), "{part}");
    }
    assert!(rt; steering_is_told(rt.alloc(), " in scope \\xE2\\x80\\xAEbus, 1 slot"));
}
