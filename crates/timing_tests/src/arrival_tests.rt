ghost use Rattle.std.specs.Prelude.{◌≡◌, ◌^◌, All, length};
ghost use Rattle.cts_model.specs.Vocabulary.{IsBelow};

use crate::circuits::{S27, S27_GATES, circuit_of, table_of};
use crate::same::{expect_same, made};
use cts_base::Listed;
use cts_model::Schedule;
use gate_order::levels;
use path_delays::{Window, arrivals};
use std::alloc::Global;
use std::process::Abort;

// A schedule of these arrivals.
fn schedule_of(rt: &impl Abort, alloc: Global, den: i128, arrivals: &[i64]) -> Schedule
    ensures den { result.den ≡ den }
    ensures registers { length result.at ≡ length arrivals.now }
    ensures small { All (IsBelow (10 ^ 19)) result.at }
{
    let mut at = Vec::new(alloc);
    for arrival in arrivals {
        made(rt, at.push(widened(*arrival)));
    }
    Schedule {
        den,
        at: Listed::from_vec(at),
    }
}

// An arrival, whose size is below 10^19.
fn widened(arrival: i64) -> i128
    ensures { IsBelow (10 ^ 19) result }
{
    i128::from(arrival)
}

// The earliest and the latest moment of each window, and `none` where there is none.
fn text_of(rt: &impl Abort, alloc: Global, windows: &[Option<Window>]) -> String {
    let mut text = String::new(alloc);
    for window in windows {
        let times = match window {
            None => format!(in alloc; "none "),
            Some(window) => format!(in alloc; "{} {} ", window.earliest, window.latest),
        };
        made(rt, text.push_str(made(rt, times).as_str()));
    }
    text
}

// The arrivals at the registers of s27 are 2, 0 and 0.
#[test]
fn finds_when_launches_arrive(rt: HostRuntime) {
    let alloc = rt.alloc();
    let circuit = circuit_of(&rt, alloc, S27, false);
    let tech = table_of(&rt, alloc, &circuit, (1, 1, 1, 2), S27_GATES);
    let order = made(&rt, levels(alloc, &circuit));
    assert!(rt; circuit.registers.len() == 3);
    let schedule = schedule_of(&rt, alloc, 1, &[2, 0, 0]);
    let windows = made(&rt, arrivals(alloc, &circuit, &order, &tech, &schedule));
    let text = text_of(&rt, alloc, windows.as_slice());
    expect_same(&rt, text.as_str(), "5 14 4 12 3 6 ", &"text.as_str");
}
