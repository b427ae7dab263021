//! Tests on the words of a call.

use crate::same::expect_same;
use command_line::{Command, WordsFault, read_command};
use std::alloc::Global;
use std::process::Abort;

// The words of a command line.
fn words(rt: &impl Abort, alloc: Global, words: &[&str]) -> Vec<String> {
    let mut all = Vec::new(alloc);
    for word in words {
        let word = String::from_str(alloc, word).expect(rt, "memory");
        all.push(word).expect(rt, "memory");
    }
    all
}

fn expect_command(
    rt: &impl Abort,
    alloc: Global,
    row: &[&str],
    wanted: Result<Command<'_>, WordsFault>,
) {
    let words = words(rt, alloc, row);
    let command = read_command(alloc, words.as_slice());
    expect_same(rt, command, wanted, &row);
}

// A command line, the netlist and the table.
const ZEROS: [(&[&str], &str, Option<&str>); 5] = [
    (&["zero", "--bench", "F"], "F", None),
    (&["zero", "--bench", "F", "--tech", "G"], "F", Some("G")),
    (&["zero", "--tech", "G", "--bench", "F"], "F", Some("G")),
    // Both options may name one file.
    (&["zero", "--bench", "F", "--tech", "F"], "F", Some("F")),
    // A command's name is a value where a value stands.
    (&["zero", "--bench", "zero"], "zero", None),
];

#[test]
fn reads_options_in_any_order(rt: HostRuntime) {
    for (row, bench, tech) in &ZEROS {
        let wanted = Ok(Command::Zero {
            bench: *bench,
            tech: *tech,
        });
        expect_command(&rt, rt.alloc(), row, wanted);
    }
}

#[test]
fn reads_period_with_both_options(rt: HostRuntime) {
    let rows: [&[&str]; 2] = [
        &["period", "--bench", "F", "--tech", "G"],
        &["period", "--tech", "G", "--bench", "F"],
    ];
    for row in rows.as_slice() {
        expect_command(
            &rt,
            rt.alloc(),
            row,
            Ok(Command::Period {
                bench: "F",
                tech: "G",
            }),
        );
    }
}

#[test]
fn reads_schedule_with_both_options(rt: HostRuntime) {
    let rows: [&[&str]; 2] = [
        &["schedule", "--bench", "F", "--tech", "G"],
        &["schedule", "--tech", "G", "--bench", "F"],
    ];
    for row in rows.as_slice() {
        expect_command(
            &rt,
            rt.alloc(),
            row,
            Ok(Command::Schedule {
                bench: "F",
                tech: "G",
            }),
        );
    }
}

#[test]
fn reads_synth_with_all_options(rt: HostRuntime) {
    let rows: [&[&str]; 2] = [
        &["synth", "--bench", "F", "--tech", "G", "--pl", "H"],
        &["synth", "--pl", "H", "--tech", "G", "--bench", "F"],
    ];
    for row in rows.as_slice() {
        expect_command(
            &rt,
            rt.alloc(),
            row,
            Ok(Command::Synth {
                bench: "F",
                tech: "G",
                pl: "H",
            }),
        );
    }
}

#[test]
fn reads_check_with_all_options(rt: HostRuntime) {
    let rows: [&[&str]; 2] = [
        &[
            "check", "--bench", "F", "--tech", "G", "--pl", "H", "--report", "I",
        ],
        &[
            "check", "--report", "I", "--tech", "G", "--bench", "F", "--pl", "H",
        ],
    ];
    for row in rows.as_slice() {
        expect_command(
            &rt,
            rt.alloc(),
            row,
            Ok(Command::Check {
                bench: "F",
                tech: "G",
                pl: "H",
                report: "I",
            }),
        );
    }
}

#[test]
fn reads_embed_with_all_options(rt: HostRuntime) {
    let rows: [&[&str]; 2] = [
        &[
            "embed",
            "--bench",
            "F",
            "--tech",
            "G",
            "--pl",
            "H",
            "--topology",
            "I",
        ],
        &[
            "embed",
            "--topology",
            "I",
            "--pl",
            "H",
            "--tech",
            "G",
            "--bench",
            "F",
        ],
    ];
    for row in rows.as_slice() {
        expect_command(
            &rt,
            rt.alloc(),
            row,
            Ok(Command::Embed {
                bench: "F",
                tech: "G",
                pl: "H",
                topology: "I",
            }),
        );
    }
}

#[test]
fn reads_margin_with_all_options(rt: HostRuntime) {
    let rows: [&[&str]; 2] = [
        &["margin", "--bench", "F", "--tech", "G", "--period", "11/2"],
        &["margin", "--period", "11/2", "--tech", "G", "--bench", "F"],
    ];
    for row in rows.as_slice() {
        expect_command(
            &rt,
            rt.alloc(),
            row,
            Ok(Command::Margin {
                bench: "F",
                tech: "G",
                period: "11/2",
            }),
        );
    }
}

#[test]
fn reads_moves_with_all_options(rt: HostRuntime) {
    let rows: [&[&str]; 2] = [
        &[
            "moves", "--bench", "F", "--tech", "G", "--pl", "H", "--moves", "I",
        ],
        &[
            "moves", "--moves", "I", "--pl", "H", "--tech", "G", "--bench", "F",
        ],
    ];
    for row in rows.as_slice() {
        expect_command(
            &rt,
            rt.alloc(),
            row,
            Ok(Command::Moves {
                bench: "F",
                tech: "G",
                pl: "H",
                moves: "I",
            }),
        );
    }
}

#[test]
fn reads_corners_with_its_tables(rt: HostRuntime) {
    let alloc = rt.alloc();
    let row = words(&rt, alloc, &["corners", "--bench", "F", "T", "F"]);
    assert!(rt; row.len() == 5);
    let command = read_command(alloc, row.as_slice());
    let tables = row.as_slice().split_at(3).1;
    expect_same(
        &rt,
        command,
        Ok(Command::Corners { bench: "F", tables }),
        &"corners",
    );
}

// A command line and its numbers.
const DEMOS: [(&[&str], &str, &str); 3] = [
    (&["demo", "--registers", "2", "--seed", "0"], "2", "0"),
    (
        &["demo", "--registers", "1000", "--seed", "999"],
        "1000",
        "999",
    ),
    // Leading zeros are allowed.
    (
        &["demo", "--seed", "000", "--registers", "0002"],
        "0002",
        "000",
    ),
];

#[test]
fn reads_demo_with_both_numbers(rt: HostRuntime) {
    for (row, registers, seed) in &DEMOS {
        let wanted = Ok(Command::Demo {
            registers: *registers,
            seed: *seed,
        });
        expect_command(&rt, rt.alloc(), row, wanted);
    }
}
