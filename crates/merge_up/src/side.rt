ghost use Rattle.std.specs.Prelude.{◌≡◌};
ghost use Rattle.merge_up.specs.Vocabulary.{IsTreeSink, IsFar, far_to, furthest_to};

use crate::end::End;
use crate::ends::Ends;
use cts_model::Sink;
use tilted_rect::Rect;

/// A side in rotated coordinates: that of greater or of smaller u, or of v.
#[derive(Clone, Copy)]
pub(crate) enum Side {
    HighU,
    LowU,
    HighV,
    LowV,
}

impl Side {
    /// A sink as the end of itself alone to this side.
    pub(crate) fn end_of(self, register: u32, sink: Sink) -> End
        requires { IsTreeSink sink }
        ensures sink { result.sink ≡ register }
        ensures far { result.far ≡ far_to self sink }
    {
        End {
            sink: register,
            far: self.far(sink),
        }
    }

    /// How far a sink is to this side, with its offset.
    pub(crate) fn far(self, sink: Sink) -> i128
        requires { IsTreeSink sink }
        ensures value { result ≡ far_to self sink }
        ensures far { IsFar result }
    {
        match self {
            Side::HighU => sink.at.u + sink.offset,
            Side::LowU => sink.offset - sink.at.u,
            Side::HighV => sink.at.v + sink.offset,
            Side::LowV => sink.offset - sink.at.v,
        }
    }

    /// How far the furthest sink of a node is to this side, by its region and its reach.
    pub(crate) fn furthest(self, region: Rect, reach: i128) -> i128
        requires { IsFar (furthest_to self region reach) }
        ensures { result ≡ furthest_to self region reach }
    {
        match self {
            Side::HighU => region.ulo + reach,
            Side::LowU => reach - region.uhi,
            Side::HighV => region.vlo + reach,
            Side::LowV => reach - region.vhi,
        }
    }

    /// Which of these is the furthest sink to this side.
    pub(crate) fn sink_of(self, ends: &Ends) -> u32 {
        match self {
            Side::HighU => ends.high_u.sink,
            Side::LowU => ends.low_u.sink,
            Side::HighV => ends.high_v.sink,
            Side::LowV => ends.low_v.sink,
        }
    }
}
