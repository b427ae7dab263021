ghost use Rattle.std.specs.Prelude.{◌≡◌, ◌<◌, ◌+◌, ◌*◌, ◌^◌, ℕ, All, Contains, IfOk, IsTrue, Some, length, nat_abs, slice_set};
ghost use Rattle.path_delays.specs.Vocabulary.{option_map, is_gate, is_valid, IsBelow, IsLevelsOf, Window, AreExtremesIfAny, StandsAt, AreInputs, gate_sums, AreWindows, IsSmallSchedule, IsWindowBelow, AreBelow, AreCaptures, AreLaunched, ArePassed, IsGateWindow, either_window, start_window, sums_in, sums_of, window_at, window_limit};

use crate::gate_delays::gate_delay;
use crate::launching::{input_signals, launched, start_sums};
use crate::window::{Scale, Window};
use cts_base::{Listed, NoMemory};
use cts_model::{Circuit, Schedule, Signal, Tech};
use gate_order::Levels;
use std::alloc::Global;

/// A circuit whose registers launch by a schedule.
#[derive(Clone, Copy)]
struct Sweep<'a> {
    circuit: &'a Circuit,
    tech: &'a Tech,
    schedule: &'a Schedule,
    scale: Scale,
    ghost den: { scale.den ≡ schedule.now.den },
    ghost small: { All (IsBelow (10 ^ 19)) schedule.now.at },
    ghost registers: { length schedule.now.at ≡ length circuit.now.registers },
}

/// When what the registers launch by a schedule comes to each register, over all paths that end
/// there. `None` comes exactly where no path does. One pass over the gates in their order, from all
/// registers at once.
///
/// # Errors
///
/// `NoMemory` where memory is refused.
pub fn arrivals(
    alloc: Global,
    circuit: &Circuit,
    levels: &Levels,
    tech: &Tech,
    schedule: &Schedule,
) -> Result<Listed<Option<Window>>, NoMemory>
    requires levels { IsLevelsOf circuit.now levels.now }
    requires schedule { IsSmallSchedule schedule.now }
    requires registers { length schedule.now.at ≡ length circuit.now.registers }
    ensures { IfOk result (AreWindows circuit.now tech.now schedule.now) }
{
    let inputs = input_signals(alloc, circuit)?;
    let mut windows = vec![in alloc; None; circuit.signals.len()]?;
    let sweep = Sweep {
        circuit,
        tech,
        schedule,
        scale: Scale { den: schedule.den },
    };
    for from in 0..circuit.registers.len() {
        sweep.launch(&mut windows, inputs.as_slice(), from);
    }
    sweep.pass_gates(&mut windows, levels);
    captured_windows(alloc, circuit, windows.as_slice())
}

impl Sweep<'_> {
    // Starts at each signal that a register launches.
    fn launch(&self, windows: &mut Vec<Option<Window>>, inputs: &[u32], from: usize)
        requires inputs { AreInputs self.now.circuit.now inputs.now }
        requires from { from < length self.now.circuit.now.registers }
        requires launched { AreLaunched self.now.circuit.now self.now.tech.now
            self.now.schedule.now from windows.old.items }
        ensures { AreLaunched self.now.circuit.now self.now.tech.now self.now.schedule.now
            (from + 1) windows.new.items }
    {
        let window = self.started(from);
        for signal in launched(self.circuit, inputs, from) {
            put(windows, *signal, Some(window));
        }
    }

    // The window at what a register launches.
    fn started(&self, from: usize) -> Window
        requires { from < length self.now.schedule.now.at }
        ensures started { result ≡ start_window self.now.tech.now self.now.schedule.now from }
        ensures small { IsWindowBelow (window_limit 0) result }
    {
        let at = self.schedule.at.as_slice()[from];
        let edge = Window {
            earliest: at,
            latest: at,
        };
        edge.suffix(start_sums(self.tech), self.scale)
    }

    // Puts its window at each gate, in the order of the levels.
    fn pass_gates(&self, windows: &mut Vec<Option<Window>>, levels: &Levels)
        requires levels { IsLevelsOf self.now.circuit.now levels.now }
        requires launched { AreLaunched self.now.circuit.now self.now.tech.now
            self.now.schedule.now (length self.now.circuit.now.registers) windows.old.items }
        ensures { ArePassed self.now.circuit.now self.now.tech.now self.now.schedule.now
            levels.now (length levels.now) windows.new.items }
    {
        for gate in levels.gates() {
            let signal = &self.circuit.signals.as_slice()[*gate as usize];
            let window = self.gate_window(windows.as_slice(), signal);
            put(windows, *gate, window);
        }
    }

    // The window of a gate, from those of the signals that it reads.
    fn gate_window(&self, windows: &[Option<Window>], gate: &Signal) -> Option<Window>
        requires gate { IsTrue (is_gate gate.now.kind) }
        requires valid_inputs { IsTrue (is_valid gate.now.kind (length gate.now.fan_in)) }
        requires reads { All (λ number. number < length windows.now) gate.now.fan_in }
        requires small { AreBelow (2 * 10 ^ 19) windows.now }
        ensures suffix { IsGateWindow windows.now gate.now.fan_in
            (nat_abs self.now.schedule.now.den) (gate_sums self.now.tech.now gate.now) result }
        ensures small { (bound : ℕ) (window : Window) → AreBelow bound windows.now
            → result ≡ Some window → IsWindowBelow (bound + 10 ^ 10) window }
    {
        let read = merged_windows(windows, gate.fan_in.as_slice())?;
        Some(read.suffix(gate_delay(self.tech, gate), self.scale))
    }
}

// Puts what is found at a signal, beside what stands there.
fn put(windows: &mut Vec<Option<Window>>, number: u32, found: Option<Window>)
    requires { number < length windows.old.items }
    ensures { windows.new.items ≡ slice_set windows.old.items number
        (either_window (window_at windows.old.items number) found) }
{
    let known = windows[number as usize];
    windows[number as usize] = Window::either(known, found);
}

// The window over some signals.
fn merged_windows(windows: &[Option<Window>], signals: &[u32]) -> Option<Window>
    requires { All (λ number. number < length windows.now) signals.now }
    ensures { AreExtremesIfAny (StandsAt (sums_in windows.now) (Contains signals.now))
        (option_map sums_of result) }
{
    let mut merged = None;
    for signal in signals {
        merged = Window::either(merged, windows[*signal as usize]);
    }
    merged
}

// For each register the window over the signals that it captures.
fn captured_windows(
    alloc: Global,
    circuit: &Circuit,
    windows: &[Option<Window>],
) -> Result<Listed<Option<Window>>, NoMemory>
    requires { length windows.now ≡ length circuit.now.signals }
    ensures { IfOk result
        (AreCaptures circuit.now windows.now (length circuit.now.registers)) }
{
    let mut captured = Vec::new(alloc);
    for register in 0..circuit.registers.len() {
        let signals = circuit.register_signal(register).fan_in.as_slice();
        captured.push(merged_windows(windows, signals))?;
    }
    Ok(Listed::from_vec(captured))
}
