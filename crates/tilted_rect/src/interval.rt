ghost use Rattle.std.specs.Prelude.{◌≡◌, ◌≤ℤ◌};
ghost use Rattle.tilted_rect.specs.Corners.{IsSide};
ghost use Rattle.tilted_rect.specs.Intervals.{between};

/// How far two intervals are apart, 0 where they meet.
pub fn between(lo: i128, hi: i128, other_lo: i128, other_hi: i128) -> i128
    requires lo { IsSide lo }
    requires hi { IsSide hi }
    requires other_lo { IsSide other_lo }
    requires other_hi { IsSide other_hi }
    requires ordered { lo ≤ℤ hi }
    requires other_ordered { other_lo ≤ℤ other_hi }
    ensures { result ≡ between lo hi other_lo other_hi }
{
    if hi < other_lo {
        other_lo - hi
    } else if other_hi < lo {
        lo - other_hi
    } else {
        0
    }
}
