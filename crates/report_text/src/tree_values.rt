//! What the lines of a report's tree say.

ghost use Rattle.std.specs.Prelude.{◌≡◌, ◌≤◌, ◌+◌, ◌*◌, ◌^◌, ℕ, [], ◌∷◌, All, IsNone, IfSome, replicate, take};
ghost use Rattle.report_text.specs.Vocabulary.{flat_map, IsPointBelow, ArePadded, length_field, Takes, SaysMerge, SaysNode, SaysSource, wire_line, IsBelow, coordinates, Circuit};
ghost use Rattle.report_text.specs.LineForms as form;

use crate::reader::line::Line;
use crate::rules::Rules;
use crate::scan::Scan;
use cts_base::NoMemory;
use cts_model::{Merge, Point, Show, Wire};

// Lengths and coordinates are below so many grid steps in size, and so is the whole wire.
const MAX_LENGTH: i128 = 100_000_000_000_000_000_000_000_000_000_000;

const MAX_TOTAL: i128 = 1_000_000_000_000_000_000_000_000_000_000_000_000;

const ORIGIN: Point = Point { x: 0, y: 0 };

/// What the line of a merge says.
#[derive(Clone, Copy, Debug, PartialEq, Eq)]
pub(crate) struct MergeLine {
    /// The two nodes that are joined.
    pub merge: Merge,
    /// The reach of the node that is made, in grid steps.
    pub reach: i128,
    /// What shows it.
    pub show: Show,
}

impl Line for MergeLine {
    ghost due = { form.Merge };

    ghost says = { λ circuit scale node words line.
        SaysMerge circuit scale.grid node words line };

    fn read(rules: &Rules, number: u32, scan: &mut Scan) -> Result<MergeLine, NoMemory> {
        scan.exactly(number);
        let first = scan.number(0, 9999);
        let second = scan.number(0, 9999);
        let reach = scan.length(rules, MAX_LENGTH);
        scan.keyword(b"pair");
        let left = scan.register(rules);
        let right = scan.from(rules, left);
        Ok(MergeLine {
            merge: Merge { first, second },
            reach,
            show: Show::Pair(left, right),
        })
    }
}

/// What the line of the source says.
#[derive(Clone, Copy, Debug, PartialEq, Eq)]
pub(crate) struct SourceLine {
    /// The source's reach, in grid steps.
    pub reach: i128,
    /// What shows it.
    pub show: Show,
}

impl Line for SourceLine {
    ghost due = { λ number. form.Source };

    ghost says = { λ circuit scale number words line. SaysSource circuit scale.grid words line };

    fn read(rules: &Rules, _number: u32, scan: &mut Scan) -> Result<SourceLine, NoMemory> {
        let is_root = scan.has_word(2, b"root");
        scan.keyword(b"source");
        let reach = scan.length(rules, MAX_LENGTH);
        if is_root {
            scan.keyword(b"root");
            return Ok(SourceLine {
                reach,
                show: Show::Root,
            });
        }
        scan.keyword(b"sink");
        let register = scan.register(rules);
        Ok(SourceLine {
            reach,
            show: Show::Sink(register),
        })
    }
}

/// What the line of a node says.
#[derive(Clone, Copy, Debug, PartialEq, Eq)]
pub(crate) struct NodeLine {
    /// Where the node stands, in grid steps.
    pub place: Point,
    /// How long the edge down to it is, in grid steps.
    pub length: i128,
    /// The edge as it is drawn.
    pub wire: Wire,
}

impl Line for NodeLine {
    ghost due = { form.Node };

    ghost says = { λ circuit scale node words line. SaysNode scale.grid node words line };

    // A line with so many words as no node has is left as it is.
    fn read(rules: &Rules, number: u32, scan: &mut Scan) -> Result<NodeLine, NoMemory> {
        let Some(points) = points_in(scan.len()) else {
            return Ok(NodeLine {
                place: ORIGIN,
                length: 0,
                wire: Wire {
                    corners: [ORIGIN; 5],
                    used: 0,
                },
            });
        };
        scan.exactly(number);
        let place = read_point(rules, scan);
        let length = scan.length(rules, MAX_LENGTH);
        scan.exactly(points as u32);
        let corners = read_corners(rules, points, scan);
        Ok(NodeLine {
            place,
            length,
            wire: Wire {
                corners,
                used: points,
            },
        })
    }
}

// How many points a node has whose line has so many words, if any has so many.
fn points_in(words: usize) -> Option<u8>
    ensures some { IfSome result (λ points. (words ≡ 5 + 2 * points) × (1 ≤ points)
        × (points ≤ 5)) }
    ensures none { IsNone result → (points : ℕ) → 1 ≤ points → points ≤ 5
        → ¬ (words ≡ 5 + 2 * points) }
{
    match words {
        7 => Some(1),
        9 => Some(2),
        11 => Some(3),
        13 => Some(4),
        15 => Some(5),
        _ => None,
    }
}

// Reads the two words of a point.
fn read_point(rules: &Rules, scan: &mut Scan) -> Point
    ensures { (circuit : Circuit) → Takes circuit
        (length_field rules.now.scale ∷ length_field rules.now.scale ∷ [])
        (coordinates rules.now.scale.grid result) (IsPointBelow (10 ^ 32) result)
        scan.old scan.new }
{
    let x = scan.length(rules, MAX_LENGTH);
    let y = scan.length(rules, MAX_LENGTH);
    Point { x, y }
}

// Reads the words of so many points, and leaves the rest at (0, 0).
fn read_corners(rules: &Rules, points: u8, scan: &mut Scan) -> [Point; 5]
    requires { points ≤ 5 }
    ensures padded { ArePadded (record { corners = result; used = points }) }
    ensures taken { (circuit : Circuit) → Takes circuit
        (replicate (2 * points) (length_field rules.now.scale))
        (flat_map (coordinates rules.now.scale.grid) (take points result))
        (All (IsPointBelow (10 ^ 32)) (take points result)) scan.old scan.new }
{
    let mut corners = [ORIGIN; 5];
    for place in 0..points as usize {
        corners[place] = read_point(rules, scan);
    }
    corners
}

/// The last line.
#[derive(Clone, Copy, Debug, PartialEq, Eq)]
pub(crate) struct TotalLine {
    /// The length of all edges, in grid steps.
    pub length: i128,
}

impl Line for TotalLine {
    ghost due = { λ number. form.Total };

    ghost says = { λ circuit scale number words line.
        (words ≡ wire_line scale.grid line.length) × IsBelow (10 ^ 36) line.length };

    fn read(rules: &Rules, _number: u32, scan: &mut Scan) -> Result<TotalLine, NoMemory> {
        scan.keyword(b"wire");
        let length = scan.length(rules, MAX_TOTAL);
        Ok(TotalLine { length })
    }
}
