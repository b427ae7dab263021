ghost use Rattle.std.specs.Prelude.{◌≡◌, ◌↔◌, ℕ, ℤ, pos, ◌+ℤ◌, ◌-ℤ◌, ◌≤ℤ◌, ◌<ℤ◌, IsNone, IfSome};
ghost use Rattle.tilted_rect.specs.Corners.{IsRect};

use crate::interval::between;
use cts_model::Uv;

/// The points with `u` from `ulo` to `uhi` and `v` from `vlo` to `vhi`, in grid steps.
#[derive(Clone, Copy, Debug, PartialEq, Eq)]
pub struct Rect {
    /// The least `u`.
    pub ulo: i128,
    /// The greatest `u`.
    pub uhi: i128,
    /// The least `v`.
    pub vlo: i128,
    /// The greatest `v`.
    pub vhi: i128,
    pub ghost valid: { IsRect ulo uhi vlo vhi },
}

impl Rect {
    ghost use Rattle.tilted_rect.specs.Vocabulary.{int_max, int_min, Uv, IsMultipleOf, IsUvBelow, IsUvMultipleOf, scaled, bound, Holds, HoldBoth, IsNear, HasSides, CanGrowBy, gap_of, IsLeastDistance, clamped_into, IsNearest};

    /// The one point.
    pub fn point(at: Uv) -> Rect
        requires below { IsUvBelow bound at }
        requires multiple { IsUvMultipleOf 4 at }
        ensures sides { HasSides result at.u at.u at.v at.v }
        ensures points { (scale : ℕ) (point : Uv)
            → Holds result scale point ↔ (point ≡ scaled scale at) }
    {
        Rect {
            ulo: at.u,
            uhi: at.u,
            vlo: at.v,
            vhi: at.v,
        }
    }

    /// The points within a distance of the rectangle.
    pub fn grown(self, by: i128) -> Rect
        requires least { pos 0 ≤ℤ by }
        requires multiple { IsMultipleOf 4 by }
        requires room { CanGrowBy self by }
        ensures sides { HasSides result
            (self.ulo -ℤ by) (self.uhi +ℤ by) (self.vlo -ℤ by) (self.vhi +ℤ by) }
        ensures points { (scale : ℕ) (point : Uv)
            → Holds result scale point ↔ IsNear self by scale point }
    {
        Rect {
            ulo: self.ulo - by,
            uhi: self.uhi + by,
            vlo: self.vlo - by,
            vhi: self.vhi + by,
        }
    }

    /// The least distance between a point of the one and a point of the other.
    pub fn gap(self, other: Rect) -> i128
        ensures value { result ≡ gap_of self other }
        ensures least { IsLeastDistance self other result }
    {
        let u = between(self.ulo, self.uhi, other.ulo, other.uhi);
        let v = between(self.vlo, self.vhi, other.vlo, other.vhi);
        u.max(v)
    }

    /// The common points, if there are any.
    pub fn meet(self, other: Rect) -> Option<Rect>
        ensures sides { IfSome result (λ common. HasSides common
            (int_max self.ulo other.ulo) (int_min self.uhi other.uhi)
            (int_max self.vlo other.vlo) (int_min self.vhi other.vhi)) }
        ensures points { IfSome result (λ common. (scale : ℕ) (point : Uv)
            → Holds common scale point ↔ HoldBoth self other scale point) }
        ensures none { IsNone result ↔ (pos 0 <ℤ gap_of self other) }
    {
        let ulo = self.ulo.max(other.ulo);
        let uhi = self.uhi.min(other.uhi);
        let vlo = self.vlo.max(other.vlo);
        let vhi = self.vhi.min(other.vhi);
        if uhi < ulo || vhi < vlo {
            return None;
        }
        Some(Rect { ulo, uhi, vlo, vhi })
    }

    /// The nearest point of the rectangle: `u` and `v` are clamped into it, each by itself.
    pub fn nearest(self, to: Uv) -> Uv
        requires below { IsUvBelow bound to }
        requires multiple { IsUvMultipleOf 4 to }
        ensures value { result ≡ clamped_into self to }
        ensures nearest { IsNearest self to result }
        ensures below { IsUvBelow bound result }
        ensures multiple { IsUvMultipleOf 4 result }
    {
        Uv {
            u: to.u.clamp(self.ulo, self.uhi),
            v: to.v.clamp(self.vlo, self.vhi),
        }
    }
}
