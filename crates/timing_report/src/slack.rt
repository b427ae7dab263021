ghost use Rattle.std.specs.Prelude.{◌≡◌, ◌*◌, ◌^◌, ◌+ℤ◌, ◌-ℤ◌, ◌*ℤ◌, All, IfOk, Some, length};
ghost use Rattle.timing_report.specs.Vocabulary.{IfSome, IsWithin, IsBelow, IsSmallPeriod, AreSlacks, AreSmallSlacks, IsSmallSlack, IsLevelsOf, IsWindowBelow, IsSlackAt, IsTicks};

use cts_base::{Fraction, Listed, NoMemory};
use cts_model::{Circuit, Schedule, Slack, Tech};
use gate_order::Levels;
use path_delays::{Window, arrivals};
use std::alloc::Global;

/// What each register has to spare at a period where the clock reaches the registers by a schedule.
/// One pass over the circuit.
///
/// # Errors
///
/// `NoMemory` where memory is refused.
pub fn slacks(
    alloc: Global,
    circuit: &Circuit,
    levels: &Levels,
    tech: &Tech,
    schedule: &Schedule,
    period: Fraction,
) -> Result<Listed<Slack>, NoMemory>
    requires levels { IsLevelsOf circuit.now levels.now }
    requires period { IsSmallPeriod period }
    requires den { schedule.now.den ≡ period.den }
    requires registers { length schedule.now.at ≡ length circuit.now.registers }
    requires small { All (IsBelow (10 ^ 19)) schedule.now.at }
    ensures ok { IfOk result (AreSlacks circuit.now tech.now period schedule.now) }
    ensures small { IfOk result (All (AreSmallSlacks period.den)) }
{
    let windows = arrivals(alloc, circuit, levels, tech, schedule)?;
    let mut slacks = Vec::new(alloc);
    for (register, window) in windows.as_slice().iter().enumerate() {
        let at = schedule.at.as_slice()[register];
        slacks.push(Edge { at, period }.slack(*window, tech))?;
    }
    Ok(Listed::from_vec(slacks))
}

// An edge of the clock at a register, and the period until the next.
#[derive(Clone, Copy)]
struct Edge {
    at: i128,
    period: Fraction,
    ghost early: { IsBelow (10 ^ 19) at },
    ghost small: { IsSmallPeriod period },
}

impl Edge {
    // What the register has to spare, from what comes to it.
    fn slack(self, window: Option<Window>, tech: &Tech) -> Slack
        requires window { IfSome window (IsWindowBelow (2 * 10 ^ 19)) }
        ensures slack { IsSlackAt tech.now self.period self.at window result }
        ensures small { AreSmallSlacks self.period.den result }
    {
        match window {
            None => Slack {
                setup: None,
                hold: None,
            },
            Some(window) => Slack {
                setup: Some(self.left(window.latest, tech.setup, self.at + self.period.num())),
                hold: Some(self.left(self.at, tech.hold, window.earliest)),
            },
        }
    }

    // What is left after the one time, and a time of the table after it, until the other.
    fn left(self, from: i128, time: i128, to: i128) -> Fraction
        requires from { IsBelow (2 * 10 ^ 19) from }
        requires time { IsWithin 0 1000000 time }
        requires to { IsBelow (3 * 10 ^ 19) to }
        ensures ticks { IsTicks self.period.den (to -ℤ (from +ℤ (self.period.den *ℤ time))) result }
        ensures small { IsSmallSlack self.period.den (Some result) }
    {
        let end = from + self.scaled(time);
        Fraction::of(to - end, self.period.den())
    }

    // A time of the table, in ticks over the period's denominator.
    fn scaled(self, time: i128) -> i128
        requires { IsWithin 0 1000000 time }
        ensures scaled { result ≡ (self.period.den *ℤ time) }
        ensures small { IsWithin 0 4097000000 result }
    {
        self.period.den() * time
    }
}
