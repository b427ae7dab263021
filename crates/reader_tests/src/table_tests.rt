use crate::same::expect_same;
use cts_base::Name;
use cts_model::Tech;
use delay_tables::{TechFault, read_tech};
use std::alloc::{AllocError, Global};
use std::process::Abort;

// The five gate kinds of the ISCAS'89 circuit s27, in the order of `Kind`.
const USED: [bool; 8] = [true, true, true, true, true, false, false, false];

const TABLE: &str = "[wire]
delay = \"1/1\"
[source]
place = \"CLK\"
[register]
setup = 1
hold = 1
least = 1
greatest = 2
[gate.NOT]
least = 1
greatest = 2
[gate.NAND]
least = 1
greatest = 2
[gate.NOR]
least = 1
greatest = 2
[gate.AND]
least = 2
greatest = 3
[gate.OR]
least = 2
greatest = 3
";

// What a table gives, or the number of its fault and the name.
fn answer(rt: &impl Abort, alloc: Global, bytes: &[u8]) -> String {
    match read_tech(alloc, bytes, &USED) {
        Ok(tech) => table_text(alloc, &tech).expect(rt, "memory"),
        Err(fault) => fault_text(alloc, &fault).expect(rt, "memory"),
    }
}

fn table_text(alloc: Global, tech: &Tech) -> Result<String, AllocError> {
    let source = String::from_utf8_lossy(alloc, tech.source.as_slice())?;
    let host = String::from_utf8_lossy(alloc, tech.host.as_slice())?;
    format!(in alloc;
        "{}/{} {source} {host} {}",
        tech.wire_num, tech.wire_den, tech.floor
    )
}

fn fault_text(alloc: Global, fault: &TechFault) -> Result<String, AllocError> {
    match fault {
        TechFault::NotToml => String::from_str(alloc, "1"),
        TechFault::Missing(name) => named(alloc, 2, name),
        TechFault::WrongType(name) => named(alloc, 3, name),
        TechFault::OutOfRange(name) => named(alloc, 4, name),
        TechFault::LeastAboveGreatest(name) => named(alloc, 5, name),
        TechFault::MissingKind(kind) => format!(in alloc; "6 {kind:?}"),
        TechFault::UnknownKey(name) => named(alloc, 7, name),
        TechFault::NoMemory => String::from_str(alloc, "8"),
    }
}

fn named(alloc: Global, number: u8, name: &Name) -> Result<String, AllocError> {
    let name = String::from_utf8_lossy(alloc, name.as_slice())?;
    format!(in alloc; "{number} {name}")
}

// The table with one text in the place of another.
fn changed(rt: &impl Abort, alloc: Global, old: &str, new: &str) -> String {
    let (prefix, suffix) = TABLE.split_once(old).expect(rt, "in the table");
    format!(in alloc; "{prefix}{new}{suffix}").expect(rt, "memory")
}

#[test]
fn reads_the_table_of_s27(rt: HostRuntime) {
    let tech = read_tech(rt.alloc(), TABLE.as_bytes(), &USED).expect(&rt, "a table");
    expect_same(&rt, (tech.wire_num, tech.wire_den), (1, 1), &"tech");
    expect_same(
        &rt,
        tech.source.as_slice(),
        b"CLK".as_slice(),
        &"tech.source",
    );
    assert!(rt; tech.host.is_empty());
    expect_same(
        &rt,
        (tech.setup, tech.hold, tech.least, tech.greatest, tech.floor),
        (1, 1, 1, 2, 0),
        &"tech",
    );
    let or = tech.gates[2];
    expect_same(&rt, (or.given, or.least, or.greatest), (true, 2, 3), &"or");
    expect_same(
        &rt,
        (or.least_per_input, or.greatest_per_input),
        (0, 0),
        &"or",
    );
    let xor = tech.gates[5];
    expect_same(
        &rt,
        (xor.given, xor.least, xor.greatest),
        (false, 0, 0),
        &"xor",
    );
}

fn expect_change(rt: &impl Abort, alloc: Global, old: &str, new: &str, expected: &str) {
    let text = changed(rt, alloc, old, new);
    let denoted = answer(rt, alloc, text.as_bytes());
    expect_same(rt, denoted.as_str(), expected, &(new, old));
}

// A part of the table, what stands in its place, and what the table gives then.
const CHANGES: [(&str, &str, &str); 37] = [
    ("[wire]", "[wire]", "1/1 CLK  0"),
    ("\"1/1\"", "\"01/02\"", "1/2 CLK  0"),
    ("\"1/1\"", "\"1000000/400000\"", "5/2 CLK  0"),
    ("\"1/1\"", "\"7\"", "7/1 CLK  0"),
    ("\"1/1\"", "\"1/0\"", "4 wire.delay"),
    ("\"1/1\"", "\"1/1000001\"", "4 wire.delay"),
    ("\"1/1\"", "\"100000000000000000000000\"", "4 wire.delay"),
    ("\"1/1\"", "\"1/\"", "3 wire.delay"),
    ("\"1/1\"", "\"/1\"", "3 wire.delay"),
    ("\"1/1\"", "\"1/1/1\"", "3 wire.delay"),
    ("\"1/1\"", "\"+1\"", "3 wire.delay"),
    ("\"1/1\"", "1.5", "3 wire.delay"),
    ("setup = 1", "setup = -1", "4 register.setup"),
    ("setup = 1", "setup = true", "3 register.setup"),
    ("setup = 1", "setup = 1000001", "4 register.setup"),
    (
        "setup = 1",
        "setup = 9223372036854775807",
        "4 register.setup",
    ),
    ("setup = 1", "setup = 1000000", "1/1 CLK  0"),
    ("setup = 1", "", "2 register.setup"),
    ("place = \"CLK\"", "place = \"\"", "4 source.place"),
    ("[gate.OR]\nleast = 2\ngreatest = 3\n", "", "6 Or"),
    ("[wire]", "[wire]\nwidth = 3", "7 wire.width"),
    (
        "\nleast = 1\ngreatest = 2",
        "\nleast = 3\ngreatest = 2",
        "5 register",
    ),
    ("[gate.AND]\nleast = 2", "[gate.AND]\nleast = 4", "5 AND"),
    ("[gate.AND]", "[gate.AND]\nleast_per_input = 1", "5 AND"),
    (
        "[gate.AND]",
        "[gate.AND]\ngreatest_per_input = 1000",
        "1/1 CLK  0",
    ),
    (
        "[gate.AND]",
        "[gate.AND]\ngreatest_per_input = 1001",
        "4 gate.AND.greatest_per_input",
    ),
    (
        "[gate.AND]",
        "[gate.XOR]\nleast = 1\n[gate.AND]",
        "2 gate.XOR.greatest",
    ),
    (
        "[gate.AND]",
        "[gate.XNOR]\nleast = 1\ngreatest = 0\n[gate.AND]",
        "5 XNOR",
    ),
    ("[source]", "[host]\n[source]", "2 host.place"),
    ("[source]", "[host]\nplace = \"\"\n[source]", "4 host.place"),
    (
        "[source]",
        "[host]\nplace = \"PAD\"\n[source]",
        "1/1 CLK PAD 0",
    ),
    (
        "[source]",
        "[period]\nfloor = 1000000000\n[source]",
        "1/1 CLK  1000000000",
    ),
    (
        "[source]",
        "[period]\nfloor = 1000000001\n[source]",
        "4 period.floor",
    ),
    ("[source]", "zz = 1\n[source]", "7 wire.zz"),
    ("[gate.AND]", "[\"a b\".c]\n[gate.AND]", "7 a b"),
    (
        "[gate.AND]",
        "[gate.FOO]\nleast = 1\n[gate.AND]",
        "7 gate.FOO",
    ),
    (
        "[gate.AND]",
        "[gate.Input]\nleast = 1\n[gate.AND]\na = 1",
        "7 gate.AND.a",
    ),
];

#[test]
fn answers_each_change_of_the_table(rt: HostRuntime) {
    for (old, new, expected) in &CHANGES {
        expect_change(&rt, rt.alloc(), old, new, expected);
    }
}

fn expect_answer(rt: &impl Abort, alloc: Global, bytes: &[u8], expected: &str) {
    let denoted = answer(rt, alloc, bytes);
    expect_same(rt, denoted.as_str(), expected, &"denoted.as_str");
}

const SHORT_TABLES: [(&[u8], &str); 6] = [
    (b"", "2 wire.delay"),
    (b"[wire", "1"),
    (b"wire = 3", "3 wire"),
    (b"wire = \"\xff\"", "1"),
    (b"gate = 1\n[wire]\ndelay = \"0\"", "4 wire.delay"),
    (
        b"[wire]\ndelay = \"1\"\n[source]\nplace = \"C\"",
        "2 register.setup",
    ),
];

#[test]
fn answers_short_tables(rt: HostRuntime) {
    for (bytes, expected) in &SHORT_TABLES {
        expect_answer(&rt, rt.alloc(), bytes, expected);
    }
}
