ghost use Rattle.relaxation.specs.GainSizes.{AreSmallGains};

use cts_model::Constraint;

/// What constraints ask of their heads beyond their tails: each its weight in ticks times a scale,
/// less what a setup or a hold constraint allows.
#[derive(Clone, Copy, Debug, PartialEq, Eq)]
pub struct Gains {
    /// How many times a weight is taken.
    pub scale: i128,
    /// What is taken away where it is that of a setup constraint: the period over the scale, less
    /// what is to be spared.
    pub setup: i128,
    /// What is taken away where it is that of a hold constraint.
    pub hold: i128,
    pub ghost valid: { AreSmallGains scale setup hold },
}

impl Gains {
    ghost use Rattle.std.specs.Prelude.{◌≡◌, ◌^◌};
    ghost use Rattle.relaxation.specs.Vocabulary.{IsBelow, gain_of};

    /// What the constraint asks of the head beyond the tail.
    pub fn gain(self, constraint: &Constraint) -> i128
        requires { IsBelow (10 ^ 11) constraint.now.weight }
        ensures gain { result ≡ gain_of self constraint.now }
        ensures small { IsBelow (2 ^ 80) result }
    {
        let asked = self.scale * constraint.weight;
        if constraint.setup {
            asked - self.setup
        } else {
            asked - self.hold
        }
    }
}
