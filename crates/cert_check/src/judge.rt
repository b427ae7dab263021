ghost use Rattle.std.specs.Prelude.{◌≡◌, ◌≤◌, ◌^◌, All, length};
ghost use Rattle.cts_model.specs.Vocabulary.{IsBelow, IsUvBelow, HasSmallWeight, HasSmallWeights, HasTreeBounds, IsBetweenRegisters, IsOfSize, IsSmallLead, cycle_of, IsSmallPeriod, leads_prop, size_prop, tree_prop, weights_prop};
ghost use Rattle.cert_check.specs.SmallSinks.{IsSmallSink};

use cts_model::{Constraint, Problem, Report, Sink, Uv};

/// A report of a problem, as it is judged.
#[derive(Clone, Copy)]
pub(crate) struct Judge<'a> {
    pub(crate) problem: &'a Problem,
    pub(crate) report: &'a Report,
    /// The constraints of the cycle that is shown, and none for the floor.
    pub(crate) cycle: &'a [Constraint],
    /// The registers as the report's tree has them.
    pub(crate) sinks: &'a [Sink],
    /// Where the source has to stand, in rotated coordinates.
    pub(crate) source: Uv,
    pub(crate) ghost size: { IsOfSize problem.now.circuit report.now } by { size_prop _ _ },
    pub(crate) ghost period: { IsSmallPeriod report.now.period },
    pub(crate) ghost weights: { HasSmallWeights report.now.shown } by { weights_prop _ },
    pub(crate) ghost arrivals: { All (IsBelow (10 ^ 19)) report.now.schedule.at },
    pub(crate) ghost paths: { All (λ path. length path ≤ 65536) report.now.paths },
    pub(crate) ghost leads: { All IsSmallLead report.now.leads } by { leads_prop _ },
    pub(crate) ghost tree: { HasTreeBounds problem.now.tech report.now } by { tree_prop _ _ },
    pub(crate) ghost among: { All (IsBetweenRegisters (length problem.now.circuit.registers))
        cycle.now },
    pub(crate) ghost light: { All HasSmallWeight cycle.now },
    pub(crate) ghost short: { length cycle.now ≤ 9999 },
    pub(crate) ghost shown: { cycle.now ≡ cycle_of report.now.shown },
    pub(crate) ghost count: { length sinks.now ≡ length problem.now.circuit.registers },
    pub(crate) ghost few: { length sinks.now ≤ 4097 },
    pub(crate) ghost small: { All IsSmallSink sinks.now },
    pub(crate) ghost near: { IsUvBelow (10 ^ 31) source },
}
