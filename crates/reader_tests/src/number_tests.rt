use crate::same::expect_same;
use cts_base::{NumberFault, read_micro};
use std::process::Abort;

fn reads(rt: &impl Abort, text: &str, micros: Result<i64, NumberFault>) {
    expect_same(rt, read_micro(text.as_bytes()), micros, &text);
}

#[test]
fn decimals_are_read_exactly(rt: HostRuntime) {
    let rows = [
        ("1e+06", 1_000_000_000_000),
        ("12.500000", 12_500_000),
        ("0.000000", 0),
        ("+5", 5_000_000),
        ("1e+01", 10_000_000),
        (".5", 500_000),
        ("-3.", -3_000_000),
        ("1e9", 1_000_000_000_000_000),
        ("-1E9", -1_000_000_000_000_000),
        ("0e99999999999999999999", 0),
        ("-0e-99999999999999999999", 0),
        ("1000000e-12", 1),
        ("0.000000000001e+6", 1),
    ];
    for (text, micros) in rows.as_slice() {
        reads(&rt, text, Ok(*micros));
    }
}

// A value that is both too fine and too large is too fine.
#[test]
fn sizes_are_refused(rt: HostRuntime) {
    let rows = [
        ("1000000000.000001", NumberFault::TooLarge),
        ("-1000000001", NumberFault::TooLarge),
        ("1e99999999999999999999", NumberFault::TooLarge),
        ("0.0000001", NumberFault::TooFine),
        ("1000000000.0000001", NumberFault::TooFine),
        ("2000000000.0000001", NumberFault::TooFine),
        ("1e-7", NumberFault::TooFine),
        ("100000e-12", NumberFault::TooFine),
        ("1e-99999999999999999999", NumberFault::TooFine),
    ];
    for (text, fault) in rows.as_slice() {
        reads(&rt, text, Err(*fault));
    }
}

#[test]
fn other_texts_are_no_numbers(rt: HostRuntime) {
    let rows = [
        "", "-", ".", "1.2.3", "+-1", "1e", "1e+", "1e2e3", "e5", "0x10", " 1", "x.y",
    ];
    for text in rows.as_slice() {
        reads(&rt, text, Err(NumberFault::NotNumber));
    }
}
