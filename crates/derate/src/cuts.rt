// Kilowatts of a reduction.
ghost use Rattle.std.specs.Prelude.{◌≡◌, ◌<◌, ◌^◌, pos, ◌-ℤ◌, FitsSigned};
ghost use mir.Syntax.{w64};
ghost use Rattle.exact.specs.Whole.{over};

use std::ops::Sub;
use tariff::Kw;

// Kilowatts of a reduction, or what its sharing leaves over in parts of the room: never negative.
#[derive(Clone, Copy)]
pub struct Cut(pub u64);

// How far `a` lies above `b`, or nothing: a POTRED, or REDtot.
pub fn cut_from(a: Kw, b: Kw) -> Cut
    ensures { result.0 ≡ over (a.0 -ℤ b.0) }
{
    if a < b {
        Cut(0)
    } else {
        Cut(a.0.abs_diff(b.0))
    }
}

impl Sub<Cut> for Kw {
    type Output = Kw;

    ghost can_sub = { λ k c. (c.0 < 2 ^ 63) × FitsSigned w64 (k.0 -ℤ pos c.0) };

    ghost sub_gives = { λ k c r. r.0 ≡ k.0 -ℤ pos c.0 };

    fn sub(self, less: Cut) -> Kw {
        Kw(self.0 - less.0 as i64)
    }
}
