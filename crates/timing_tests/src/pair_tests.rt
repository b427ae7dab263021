ghost use Rattle.gate_order.specs.LevelParts.{IsLevelsOf};

use crate::circuits::{
    RING, Registers, S27, S27_GATES, TO_OUTPUT, TWO_WAYS, TWO_WAYS_GATES, circuit_of, table_of,
    wide,
};
use crate::same::{expect_same, made};
use constraints::constraints_of;
use cts_base::Listed;
use cts_model::{Circuit, PairDelay, Tech, ZeroSkew};
use gate_order::{Levels, levels};
use path_delays::{PairFault, Paths, delays_between, pair_delay, pair_delays, path_of};
use std::alloc::Global;
use std::process::Abort;
use timing_report::zero_skew;

// Two registers, and the least and the greatest delay between them.
type Row = (u32, u32, i128, i128);

fn pair(row: Row) -> PairDelay {
    PairDelay {
        from: row.0,
        to: row.1,
        least: row.2,
        greatest: row.3,
    }
}

// The one of the rows that is about a pair.
fn row_of(rows: &[Row], from: u32, to: u32) -> Option<PairDelay> {
    for row in rows {
        if row.0 == from && row.1 == to {
            return Some(pair(*row));
        }
    }
    None
}

// Registers of 3 ticks and gates of one; the host is register 3. A path of so many ticks has two
// signals less.
const S27_PAIRS: [Row; 7] = [
    (0, 0, 5, 5),
    (0, 1, 4, 4),
    (1, 0, 8, 8),
    (1, 1, 7, 7),
    (2, 0, 8, 8),
    (2, 1, 7, 7),
    (2, 2, 5, 5),
];

const S27_HOST_PAIRS: [Row; 14] = [
    (0, 0, 5, 5),
    (0, 1, 4, 4),
    (0, 3, 5, 5),
    (1, 0, 8, 8),
    (1, 1, 7, 7),
    (1, 3, 8, 8),
    (2, 0, 8, 8),
    (2, 1, 7, 7),
    (2, 2, 5, 5),
    (2, 3, 8, 8),
    (3, 0, 5, 9),
    (3, 1, 6, 8),
    (3, 2, 4, 5),
    (3, 3, 7, 9),
];

// A pair's longest and its shortest path have two signals less than its delays have ticks.
fn expect_lengths(
    rt: &impl Abort,
    alloc: Global,
    circuit: &Circuit,
    order: &Levels,
    tech: &Tech,
    pair: PairDelay,
)
    requires { IsLevelsOf circuit.now order.now }
{
    let PairDelay { from, to, .. } = pair;
    assert!(rt; (from as usize) < circuit.registers.len());
    assert!(rt; (to as usize) < circuit.registers.len());
    for (longest, delay) in [(true, pair.greatest), (false, pair.least)].as_slice() {
        let path = made(rt, path_of(alloc, circuit, order, tech, from, to, *longest));
        let length = path.expect(rt, "a path").len();
        assert!(rt; length < 100);
        expect_same(rt, length as i128 + 2, *delay, &(from, to));
    }
}

fn expect_s27(rt: &impl Abort, alloc: Global, host: bool, rows: &[Row]) {
    let tech = Tech::plain(alloc);
    let circuit = circuit_of(rt, alloc, S27, host);
    let order = made(rt, levels(alloc, &circuit));
    let pairs = made(rt, pair_delays(alloc, &circuit, &order, &tech));
    expect_same(rt, pairs.len(), rows.len(), &"pairs.len");
    for (found, row) in pairs.as_slice().iter().zip(rows) {
        expect_same(rt, *found, pair(*row), &row);
        expect_lengths(rt, alloc, &circuit, &order, &tech, *found);
    }
}

#[test]
fn finds_the_delays_of_s27(rt: HostRuntime) {
    expect_s27(&rt, rt.alloc(), false, &S27_PAIRS);
    expect_s27(&rt, rt.alloc(), true, &S27_HOST_PAIRS)
}

// Each two registers are a pair where a row says so.
fn expect_each(
    rt: &impl Abort,
    alloc: Global,
    circuit: &Circuit,
    order: &Levels,
    tech: &Tech,
    rows: &[Row],
)
    requires { IsLevelsOf circuit.now order.now }
{
    let count = circuit.registers.len();
    for from in 0..4u32 {
        for to in 0..4u32 {
            if (from as usize) < count && (to as usize) < count {
                let alone = made(rt, pair_delay(alloc, circuit, order, tech, from, to));
                expect_same(rt, alone, row_of(rows, from, to), &(from, to, rows));
            }
        }
    }
}

// The pairs of a netlist with a table.
fn expect_pairs(
    rt: &impl Abort,
    alloc: Global,
    text: &str,
    host: bool,
    registers: Registers,
    rest: &str,
    rows: &[Row],
) {
    let circuit = circuit_of(rt, alloc, text, host);
    let tech = table_of(rt, alloc, &circuit, registers, rest);
    let order = made(rt, levels(alloc, &circuit));
    let pairs = made(rt, pair_delays(alloc, &circuit, &order, &tech));
    expect_same(rt, pairs.len(), rows.len(), &text);
    for (found, row) in pairs.as_slice().iter().zip(rows) {
        expect_same(rt, *found, pair(*row), &text);
    }
    expect_each(rt, alloc, &circuit, &order, &tech, rows);
}

// A netlist, whether it has the host, its registers and gates, and the pairs.
const PAIRS: [(&str, bool, Registers, &str, &[Row]); 8] = [
    (
        S27,
        false,
        (1, 1, 1, 2),
        S27_GATES,
        &[
            (0, 0, 3, 6),
            (0, 1, 2, 4),
            (1, 0, 8, 14),
            (1, 1, 7, 12),
            (2, 0, 7, 13),
            (2, 1, 6, 11),
            (2, 2, 3, 6),
        ],
    ),
    // The greatest path is A, p, z, and the least is A, z.
    (
        TWO_WAYS,
        false,
        (1, 2, 1, 1),
        TWO_WAYS_GATES,
        &[(0, 1, 2, 7)],
    ),
    (
        RING,
        false,
        (0, 2, 1, 1),
        "[gate.BUFF]\nleast = 2\ngreatest = 5",
        &[(0, 1, 1, 1), (1, 0, 3, 6)],
    ),
    (
        "INPUT(x)\nOUTPUT(r0)\nr0 = DFF(b1)\nr1 = DFF(b0)\na0 = NAND(r0, r0)
a1 = NAND(r1, r1)\nb0 = XOR(a0, x)\nb1 = BUFF(a1)",
        false,
        (1, 1, 1, 2),
        "[gate.NAND]\nleast = 2\ngreatest = 4\n[gate.XOR]\nleast = 3\ngreatest = 9
[gate.BUFF]\nleast = 1\ngreatest = 2",
        &[(0, 1, 6, 15), (1, 0, 4, 8)],
    ),
    // Three inputs that are one signal: two of them are further ones.
    (
        "A = DFF(g)\ng = AND(A, A, A)",
        false,
        (0, 0, 0, 0),
        "[gate.AND]\nleast = 2\ngreatest = 5\nleast_per_input = 1\ngreatest_per_input = 10",
        &[(0, 0, 4, 25)],
    ),
    // The host launches the input, which A captures, and captures the output.
    (
        TO_OUTPUT,
        true,
        (1, 1, 1, 2),
        "[gate.NOT]\nleast = 1\ngreatest = 3",
        &[(0, 1, 2, 5), (1, 0, 1, 2)],
    ),
    (
        TO_OUTPUT,
        false,
        (1, 1, 1, 2),
        "[gate.NOT]\nleast = 1\ngreatest = 3",
        &[],
    ),
    // An input that is an output.
    (
        "INPUT(x)\nOUTPUT(x)\nA = DFF(A)",
        true,
        (2, 0, 1, 1),
        "",
        &[(0, 0, 1, 1), (1, 1, 1, 1)],
    ),
];

#[test]
fn finds_the_delays_of_tables(rt: HostRuntime) {
    for (text, host, registers, rest, rows) in &PAIRS {
        expect_pairs(&rt, rt.alloc(), text, *host, *registers, rest, rows);
    }
}

// Pairs that are asked for in any order, of which paths join two.
#[test]
fn finds_the_delays_of_given_pairs(rt: HostRuntime) {
    let alloc = rt.alloc();
    let circuit = circuit_of(&rt, alloc, S27, false);
    let tech = table_of(&rt, alloc, &circuit, (1, 1, 1, 2), S27_GATES);
    let order = made(&rt, levels(alloc, &circuit));
    assert!(rt; circuit.registers.len() == 3);
    let asked = [(2, 0), (0, 2), (1, 1)];
    let found = made(&rt, delays_between(alloc, &circuit, &order, &tech, &asked));
    let wanted = [Some(pair((2, 0, 7, 13))), None, Some(pair((1, 1, 7, 12)))];
    expect_same(&rt, found.as_slice(), wanted.as_slice(), &"found");
}

// The names of signals, a space after each, and nothing where no path is.
fn names_of(
    rt: &impl Abort,
    alloc: Global,
    circuit: &Circuit,
    path: &Option<Listed<u32>>,
) -> Vec<u8> {
    let mut names = Vec::new(alloc);
    if let Some(path) = path {
        for number in path.as_slice() {
            if let Some(signal) = circuit.signals.get(*number as usize) {
                made(rt, names.extend_from_slice(signal.name.as_slice()));
                made(rt, names.extend_from_slice(b" "));
            }
        }
    }
    names
}

// A path between two registers: whether it is the greatest, and its names. Of two paths with the
// same delay either may be given.
type Path = (u32, u32, bool, &'static str, &'static str);

fn expect_path(
    rt: &impl Abort,
    alloc: Global,
    text: &str,
    registers: Registers,
    rest: &str,
    (from, to, greatest, one, other): Path,
) {
    let circuit = circuit_of(rt, alloc, text, false);
    let tech = table_of(rt, alloc, &circuit, registers, rest);
    let order = made(rt, levels(alloc, &circuit));
    let count = circuit.registers.len();
    assert!(rt; (from as usize) < count);
    assert!(rt; (to as usize) < count);
    let path = made(
        rt,
        path_of(alloc, &circuit, &order, &tech, from, to, greatest),
    );
    let names = names_of(rt, alloc, &circuit, &path);
    assert!(rt;
        names.as_slice() == one.as_bytes() || names.as_slice() == other.as_bytes(),
        "{from} {to} at {text:?}"
    );
}

const PATHS: [(&str, Registers, &str, Path); 7] = [
    (
        S27,
        (1, 1, 1, 2),
        S27_GATES,
        (1, 0, true, "G6 G8 G15 G9 G11 G10 ", "G6 G8 G16 G9 G11 G10 "),
    ),
    (
        S27,
        (1, 1, 1, 2),
        S27_GATES,
        (2, 1, false, "G7 G12 G15 G9 G11 ", "G7 G12 G15 G9 G11 "),
    ),
    (S27, (1, 1, 1, 2), S27_GATES, (0, 2, true, "", "")),
    (
        TWO_WAYS,
        (1, 2, 1, 1),
        TWO_WAYS_GATES,
        (0, 1, true, "A p z ", "A p z "),
    ),
    (
        TWO_WAYS,
        (1, 2, 1, 1),
        TWO_WAYS_GATES,
        (0, 1, false, "A z ", "A z "),
    ),
    (TWO_WAYS, (1, 2, 1, 1), TWO_WAYS_GATES, (1, 0, true, "", "")),
    (
        TWO_WAYS,
        (1, 2, 1, 1),
        TWO_WAYS_GATES,
        (0, 0, false, "", ""),
    ),
];

#[test]
fn finds_the_paths_of_tables(rt: HostRuntime) {
    for (text, registers, rest, path) in &PATHS {
        expect_path(&rt, rt.alloc(), text, *registers, rest, *path);
    }
}

// Signals of a setup and a hold constraint's path for each pair.
const S27_PATH_LENGTHS: [usize; 14] = [3, 3, 2, 2, 6, 6, 5, 5, 6, 6, 5, 5, 3, 3];

fn expect_path_lengths(rt: &impl Abort, alloc: Global, paths: &[Listed<u32>]) {
    let mut lengths = Vec::new(alloc);
    for path in paths {
        made(rt, lengths.push(path.len()));
    }
    expect_same(
        rt,
        lengths.as_slice(),
        S27_PATH_LENGTHS.as_slice(),
        &"lengths",
    );
}

#[test]
fn finds_the_paths_of_constraints(rt: HostRuntime) {
    let alloc = rt.alloc();
    let tech = Tech::plain(alloc);
    let circuit = circuit_of(&rt, alloc, S27, false);
    let order = made(&rt, levels(alloc, &circuit));
    let pairs = made(&rt, pair_delays(alloc, &circuit, &order, &tech));
    let constraints = made(&rt, constraints_of(alloc, &pairs, &tech));
    let mut search = made(&rt, Paths::new(alloc, &circuit, &order, &tech));
    let first = made(&rt, search.of_constraints(alloc, constraints.as_slice()));
    let second = made(&rt, search.of_constraints(alloc, constraints.as_slice()));
    expect_path_lengths(&rt, alloc, first.as_slice());
    // Nothing is left of the first walk in the room of the second.
    expect_path_lengths(&rt, alloc, second.as_slice());
}

fn expect_plain_zero(rt: &impl Abort, alloc: Global, text: &str, host: bool, wanted: ZeroSkew) {
    let tech = Tech::plain(alloc);
    let circuit = circuit_of(rt, alloc, text, host);
    let order = made(rt, levels(alloc, &circuit));
    let pairs = made(rt, pair_delays(alloc, &circuit, &order, &tech));
    expect_same(rt, zero_skew(&pairs, &tech), wanted, &text);
}

const PLAIN_ZEROS: [(&str, bool, ZeroSkew); 4] = [
    (
        S27,
        false,
        ZeroSkew::Setup {
            value: 10,
            pair: PairDelay {
                from: 1,
                to: 0,
                least: 8,
                greatest: 8,
            },
        },
    ),
    (
        S27,
        true,
        ZeroSkew::Setup {
            value: 11,
            pair: PairDelay {
                from: 3,
                to: 0,
                least: 5,
                greatest: 9,
            },
        },
    ),
    (
        "input( x )\r\nOUTPUT(b)\noutput(b)\na=dff(x)\nb = Dff ( a )",
        false,
        ZeroSkew::Setup {
            value: 5,
            pair: PairDelay {
                from: 0,
                to: 1,
                least: 3,
                greatest: 3,
            },
        },
    ),
    // No path ends at a register that a register launches to.
    (
        "INPUT(x)\na = DFF(g)\ng = NOT(x)",
        false,
        ZeroSkew::Floor { value: 0 },
    ),
];

#[test]
fn reports_the_least_period_at_equal_arrivals(rt: HostRuntime) {
    for (text, host, wanted) in &PLAIN_ZEROS {
        expect_plain_zero(&rt, rt.alloc(), text, *host, *wanted);
    }
}

#[test]
fn lists_1048576_pairs_and_no_more(rt: HostRuntime) {
    let alloc = rt.alloc();
    let tech = Tech::plain(alloc);
    let most = circuit_of(&rt, alloc, wide(&rt, alloc, 1024).as_str(), false);
    let order = made(&rt, levels(alloc, &most));
    let pairs = made(&rt, pair_delays(alloc, &most, &order, &tech));
    expect_same(&rt, pairs.len(), 1_048_576, &"pairs.len");
    expect_same(
        &rt,
        pairs.get(0).copied(),
        Some(pair((0, 0, 4, 4))),
        &"pairs.get",
    );
    expect_same(
        &rt,
        pairs.get(1_048_575).copied(),
        Some(pair((1023, 1023, 4, 4))),
        &"pairs.get",
    );
    let wanted = ZeroSkew::Setup {
        value: 6,
        pair: pair((0, 0, 4, 4)),
    };
    expect_same(&rt, zero_skew(&pairs, &tech), wanted, &"zero_skew");
    let more = circuit_of(&rt, alloc, wide(&rt, alloc, 1025).as_str(), false);
    let order = made(&rt, levels(alloc, &more));
    let refused = pair_delays(alloc, &more, &order, &tech);
    expect_same(
        &rt,
        refused.err(),
        Some(PairFault::TooManyPairs),
        &"refused",
    );
}

// Two registers, and so many inverters one after the other from the first to the second.
fn chain(rt: &impl Abort, alloc: Global, length: u32) -> String {
    let mut text = made(rt, format!(in alloc; "INPUT(x)\nA = DFF(x)\nn0 = NOT(A)\n"));
    for gate in 1..length {
        let line = made(
            rt,
            format!(in alloc; "n{gate} = NOT(n{})\n", gate.saturating_sub(1)),
        );
        made(rt, text.push_str(line.as_str()));
    }
    made(
        rt,
        text.push_str(made(
            rt,
            format!(in alloc; "B = DFF(n{})\n", length.saturating_sub(1)),
        )
        .as_str()),
    );
    text
}

#[test]
fn adds_up_a_chain_of_60000_inverters(rt: HostRuntime) {
    let alloc = rt.alloc();
    let tech = Tech::plain(alloc);
    let circuit = circuit_of(&rt, alloc, chain(&rt, alloc, 60_000).as_str(), false);
    let order = made(&rt, levels(alloc, &circuit));
    let pairs = made(&rt, pair_delays(alloc, &circuit, &order, &tech));
    expect_same(
        &rt,
        pairs.as_slice(),
        [pair((0, 1, 60_003, 60_003))].as_slice(),
        &"pairs",
    );
    let wanted = ZeroSkew::Setup {
        value: 60_005,
        pair: pair((0, 1, 60_003, 60_003)),
    };
    expect_same(&rt, zero_skew(&pairs, &tech), wanted, &"zero_skew");
    assert!(rt; 1 < circuit.registers.len());
    let path = made(&rt, path_of(alloc, &circuit, &order, &tech, 0, 1, false));
    expect_same(&rt, path.expect(&rt, "a path").len(), 60_001, &"path.ok_or");
}

// More ticks than lanes of 32 bits hold: 600 gates of 999,999 to 1,000,000 after a register of 1
// to 2.
#[test]
fn adds_up_more_ticks_than_32_bits_hold(rt: HostRuntime) {
    let alloc = rt.alloc();
    let text = chain(&rt, alloc, 600);
    let gates = "[gate.NOT]\nleast = 999999\ngreatest = 1000000\n";
    let rows = [(0, 1, 599_999_401, 600_000_002)];
    expect_pairs(
        &rt,
        alloc,
        text.as_str(),
        false,
        (1, 1, 1, 2),
        gates,
        rows.as_slice(),
    );
}
