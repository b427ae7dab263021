ghost use Rattle.merge_up.specs.Distances.{IsFar};

/// A sink that is furthest to a side, and how far it is there, with its offset.
#[derive(Clone, Copy, Debug, PartialEq, Eq)]
pub struct End {
    /// The sink's register.
    pub sink: u32,
    /// How far the sink is to that side, in grid steps.
    pub far: i128,
    pub ghost valid: { IsFar far },
}
