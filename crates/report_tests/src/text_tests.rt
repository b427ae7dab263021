use crate::cases::{Case, LONE, LOPSIDED, PAIR, S27, circuit_of, first_version, table_of};
use crate::same::expect_same;
use cts_model::{Circuit, Tech};
use report_text::{ReportFault, read_report, write_report};
use std::alloc::Global;
use std::process::Abort;

// The bytes that a report is written with once it is read, or the fault of its text.
fn rewritten(
    alloc: Global,
    circuit: &Circuit,
    tech: &Tech,
    text: &[u8],
) -> Result<Vec<u8>, ReportFault> {
    let report = read_report(alloc, text, circuit, tech)?;
    let written = write_report(alloc, &report, circuit)?;
    Ok(written)
}

fn expect_itself(rt: &impl Abort, alloc: Global, circuit: &Circuit, tech: &Tech, text: &str) {
    let written = rewritten(alloc, circuit, tech, text.as_bytes()).expect(rt, "a report");
    expect_same(rt, written.as_slice(), text.as_bytes(), &text);
}

fn expect_both_versions(rt: &impl Abort, alloc: Global, case: &Case) {
    let circuit = circuit_of(rt, alloc, case);
    let tech = table_of(rt, alloc, case, &circuit);
    expect_itself(rt, alloc, &circuit, &tech, case.report);
    let first = first_version(alloc, case.report).expect(rt, "memory");
    expect_itself(rt, alloc, &circuit, &tech, &first);
}

const CASES: [Case; 4] = [S27, LOPSIDED, PAIR, LONE];

#[test]
fn writes_what_it_reads(rt: HostRuntime) {
    for case in &CASES {
        expect_both_versions(&rt, rt.alloc(), case);
    }
}
