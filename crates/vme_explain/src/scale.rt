//! The heading of the times of a dump, by its time scale.

/// The heading of a dump's times, as `time (ns)`, or `time (10 ns)` where each counts for 10 ns. It is `time` alone if
/// the scale isn't one of the standard's.
pub fn time_name(scale: &[u8]) -> &'static str {
    match scale {
        b"1s" => "time (s)",
        b"10s" => "time (10 s)",
        b"100s" => "time (100 s)",
        b"1ms" => "time (ms)",
        b"10ms" => "time (10 ms)",
        b"100ms" => "time (100 ms)",
        b"1us" => "time (us)",
        b"10us" => "time (10 us)",
        b"100us" => "time (100 us)",
        b"1ns" => "time (ns)",
        b"10ns" => "time (10 ns)",
        b"100ns" => "time (100 ns)",
        b"1ps" => "time (ps)",
        b"10ps" => "time (10 ps)",
        b"100ps" => "time (100 ps)",
        b"1fs" => "time (fs)",
        b"10fs" => "time (10 fs)",
        b"100fs" => "time (100 fs)",
        _ => "time",
    }
}
