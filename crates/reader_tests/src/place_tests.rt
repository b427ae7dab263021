use crate::same::{expect_same, made};
use bench_reader::read_bench;
use cts_base::NumberFault;
use cts_model::{Circuit, Places, Point, with_host};
use place_reader::{PlaceFault, read_places};
use std::alloc::Global;
use std::process::Abort;

// Three registers and nothing else.
const REGISTERS: &str = "G5 = DFF(G6)\nG6 = DFF(G7)\nG7 = DFF(G5)\n";

fn at(x: i128, y: i128) -> Point {
    Point { x, y }
}

// What a placement denotes of the three registers and the source.
fn read(rt: &impl Abort, alloc: Global, text: &str, source: &str) -> Result<Places, PlaceFault> {
    assert!(rt; text.len() <= 16_777_216);
    let circuit = made(rt, read_bench(alloc, REGISTERS.as_bytes()));
    read_places(alloc, text.as_bytes(), &circuit, source.as_bytes(), b"")
}

// The same with the host, which stands at a node of its own.
fn read_hosted(
    rt: &impl Abort,
    alloc: Global,
    text: &str,
    host: &str,
) -> Result<Places, PlaceFault> {
    assert!(rt; text.len() <= 16_777_216);
    assert!(rt; !host.is_empty());
    let circuit = made(
        rt,
        with_host(alloc, made(rt, read_bench(alloc, REGISTERS.as_bytes()))),
    );
    read_places(alloc, text.as_bytes(), &circuit, b"CLK", host.as_bytes())
}

fn expect_places(rt: &impl Abort, places: &Places, source: Point, registers: &[Point], row: &str) {
    expect_same(rt, places.source, source, &row);
    expect_same(rt, places.registers.as_slice(), registers, &row);
}

// G5 at (1, 2), G6 at (3, 4), G7 at (5, 6) and the source at (7, 8), in millionths.
fn expect_millionths(rt: &impl Abort, alloc: Global, text: &str) {
    let places = made(rt, read(rt, alloc, text, "CLK"));
    expect_places(rt, &places, at(7, 8), &[at(1, 2), at(3, 4), at(5, 6)], text);
}

#[test]
fn takes_lenient_spellings(rt: HostRuntime) {
    for text in [
        "G5 1e-6 2e-6\nG6 3e-6 4e-6\nG7 5e-6 6e-6\nCLK 7e-6 8e-6",
        // Any order, any orientation and its spelling, a remark with or without it.
        "CLK 7e-6 8e-6:fw\nG7 5e-6 6e-6: Fe\nG6 3e-6 4e-6 :S /\nG5 1e-6 2e-6 /a:b\n",
        "CLK 7e-6 8e-6\t:\tw /\nG7 5e-6 6e-6\nG6 3e-6 4e-6\nG5 1e-6 2e-6\n",
        // The header is the first line that isn't blank.
        "\r\n# UCLA\r\n\tUCLA\tpl#1\r\nG5 1e-6 2e-6\r\nG6 3e-6 4e-6\nG7 5e-6 6e-6\nCLK 7e-6 8e-6",
        // Further on and in another case it names a node.
        "ucla pl 1.0\nUCLA pl 1.0\nG5 1e-6 2e-6\nG6 3e-6 4e-6\nG7 5e-6 6e-6\nCLK 7e-6 8e-6",
        "UCLA pl\nUCLA pl 1\nUCLA pl 1\nG5 1e-6 2e-6\nG6 3e-6 4e-6\nG7 5e-6 6e-6\nCLK 7e-6 8e-6",
        "UCLA pl: 1\nG5 1e-6 2e-6\nG6 3e-6 4e-6\nG7 5e-6 6e-6\nCLK 7e-6 8e-6",
        // Any other node is passed over, whatever its numbers are and how often it stands there.
        "p x.y 1\np 1e-9 x.y\nG5 1e-6 2e-6\np ::: 1\nG6 3e-6 4e-6\nG7 5e-6 6e-6\nCLK 7e-6 8e-6",
    ]
    .as_slice()
    {
        expect_millionths(&rt, rt.alloc(), text);
    }
}

fn expect_refused(rt: &impl Abort, alloc: Global, text: &str, source: &str, fault: PlaceFault) {
    let refused = read(rt, alloc, text, source).err();
    expect_same(rt, refused, Some(fault), &text);
}

#[test]
fn refuses_lines(rt: HostRuntime) {
    for (text, fault) in [
        ("UCLA pl\nG5 0 0 : N/FIXED", PlaceFault::BadLine(2)),
        ("G5 0 0 : X", PlaceFault::BadLine(1)),
        ("G5 0 0 : N /FIXED /MORE", PlaceFault::BadLine(1)),
        ("G5 0 0 /FIXED : N", PlaceFault::BadLine(1)),
        ("G5 0 0 :", PlaceFault::BadLine(1)),
        ("G5 0 : N", PlaceFault::BadLine(1)),
        ("\nG5", PlaceFault::BadLine(2)),
        ("G5 0", PlaceFault::BadLine(1)),
        ("ucla pl\nG5 0 0", PlaceFault::BadLine(1)),
        ("UCLA pl\nUCLA pl", PlaceFault::BadLine(2)),
        // So is the line of a node that isn't wanted.
        ("p 0 0 : X", PlaceFault::BadLine(1)),
        (
            "UCLA pl 1.0\nG5 1000000000.000001 0 : N",
            PlaceFault::BadNumber(2, NumberFault::TooLarge),
        ),
        (
            "UCLA pl 1.0\n# from a placer\nG5 0.0000001 0 : N",
            PlaceFault::BadNumber(3, NumberFault::TooFine),
        ),
        (
            "UCLA pl 1.0\nG5 0 - : N",
            PlaceFault::BadNumber(2, NumberFault::NotNumber),
        ),
        // x is judged before y.
        (
            "UCLA pl 1.0\nG5 - 1e-7",
            PlaceFault::BadNumber(2, NumberFault::NotNumber),
        ),
        ("CLK 0 1e-7", PlaceFault::BadNumber(1, NumberFault::TooFine)),
        ("G5 0 0\nG6 1 1\nG5 0 0", PlaceFault::PlaceTwice(3)),
        ("CLK 0 0\np 1 1\nCLK 1 1", PlaceFault::PlaceTwice(3)),
        // Numbers are judged before that.
        (
            "G5 0 0\nG5 x 0",
            PlaceFault::BadNumber(2, NumberFault::NotNumber),
        ),
    ]
    .as_slice()
    {
        expect_refused(&rt, rt.alloc(), text, "CLK", *fault);
    }
}

#[test]
fn misses_places(rt: HostRuntime) {
    for (text, source, fault) in [
        ("", "CLK", PlaceFault::NoPlace(0)),
        ("UCLA pl", "CLK", PlaceFault::NoPlace(0)),
        ("G5 0 0\nG7 0 0\nCLK 0 0", "CLK", PlaceFault::NoPlace(1)),
        ("G5 0 0\nG6 0 0\ng7 0 0", "CLK", PlaceFault::NoPlace(2)),
        ("G5 0 0\nG6 0 0\nG7 0 0", "CLK", PlaceFault::NoSource),
        ("G5 0 0\nG6 0 0\nG7 0 0\nC 0 0", "C K", PlaceFault::NoSource),
    ]
    .as_slice()
    {
        expect_refused(&rt, rt.alloc(), text, source, *fault);
    }
}

#[test]
fn places_one_node_for_two(rt: HostRuntime) {
    let text = "G7 5e-6 6e-6\nG6 3e-6 4e-6\nG5 1e-6 2e-6";
    let places = made(&rt, read(&rt, rt.alloc(), text, "G5"));
    expect_places(
        &rt,
        &places,
        at(1, 2),
        &[at(1, 2), at(3, 4), at(5, 6)],
        text,
    );
}

const HOSTED: &str = "(host) x y\nG5 0 1e-6\nG6 0 2e-6\nG7 0 3e-6\nCLK 0 4e-6\nPAD 0 5e-6";

fn expect_host(rt: &impl Abort, alloc: Global, host: &str, place: i128) {
    let places = made(rt, read_hosted(rt, alloc, HOSTED, host));
    let registers = [at(0, 1), at(0, 2), at(0, 3), at(0, place)];
    expect_places(rt, &places, at(0, 4), &registers, host);
}

#[test]
fn places_the_host(rt: HostRuntime) {
    expect_host(&rt, rt.alloc(), "PAD", 5);
    expect_host(&rt, rt.alloc(), "CLK", 4);
    expect_host(&rt, rt.alloc(), "G6", 2);
    let refused = read_hosted(&rt, rt.alloc(), HOSTED, "pad").err();
    expect_same(&rt, refused, Some(PlaceFault::NoPlace(3)), &"refused");
}
