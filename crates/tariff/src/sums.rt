// Sums, differences and products of the units. Kilowatts, prices and grains are types of their own, so none can be added to another, and only
// a product of kilowatts and a price with seconds makes grains; movement at its price does as well. Any values are taken: a result that does not
// fit 64 bits wraps, as the machine's does. A caller that wants the number itself proves that it fits; that of numbers in their ranges does.
#![tactic(auto, using(std::proofs::lemmas::Int::wraps))]

ghost use Rattle.std.specs.Prelude.{◌≡◌, ◌+ℤ◌, ◌-ℤ◌};
ghost use Rattle.std.specs.Int.{int_wrap};
ghost use mir.Syntax.{w64};
ghost use Rattle.tariff.specs.Units.{grains_of, moved_grains};

use crate::{Cents, Grains, Kw, MovePrice, Price, Seconds};
use std::ops::{Add, Sub};

impl Add for Kw {
    type Output = Kw;

    ghost add_gives = { λ a b r. r.0 ≡ int_wrap w64 (a.0 +ℤ b.0) };

    fn add(self, more: Kw) -> Kw {
        Kw(self.0.wrapping_add(more.0))
    }
}

impl Sub for Kw {
    type Output = Kw;

    ghost sub_gives = { λ a b r. r.0 ≡ int_wrap w64 (a.0 -ℤ b.0) };

    fn sub(self, less: Kw) -> Kw {
        Kw(self.0.wrapping_sub(less.0))
    }
}

impl Sub for Price {
    type Output = Price;

    ghost sub_gives = { λ a b r. r.0 ≡ int_wrap w64 (a.0 -ℤ b.0) };

    fn sub(self, less: Price) -> Price {
        Price(self.0.wrapping_sub(less.0))
    }
}

impl Sub for MovePrice {
    type Output = MovePrice;

    ghost sub_gives = { λ a b r. r.0 ≡ int_wrap w64 (a.0 -ℤ b.0) };

    fn sub(self, less: MovePrice) -> MovePrice {
        MovePrice(self.0.wrapping_sub(less.0))
    }
}

impl Add for Grains {
    type Output = Grains;

    ghost add_gives = { λ a b r. r.0 ≡ int_wrap w64 (a.0 +ℤ b.0) };

    fn add(self, more: Grains) -> Grains {
        Grains(self.0.wrapping_add(more.0))
    }
}

impl Sub for Grains {
    type Output = Grains;

    ghost sub_gives = { λ a b r. r.0 ≡ int_wrap w64 (a.0 -ℤ b.0) };

    fn sub(self, less: Grains) -> Grains {
        Grains(self.0.wrapping_sub(less.0))
    }
}

impl Add for Seconds {
    type Output = Seconds;

    ghost add_gives = { λ a b r. r.0 ≡ int_wrap w64 (a.0 +ℤ b.0) };

    fn add(self, more: Seconds) -> Seconds {
        Seconds(self.0.wrapping_add(more.0))
    }
}

impl Add for Cents {
    type Output = Cents;

    ghost add_gives = { λ a b r. r.0 ≡ int_wrap w64 (a.0 +ℤ b.0) };

    fn add(self, more: Cents) -> Cents {
        Cents(self.0.wrapping_add(more.0))
    }
}

impl Kw {
    // Kilowatts at a price for some seconds.
    pub fn priced(self, p: Price, s: Seconds) -> Grains
        ensures { result.0 ≡ int_wrap w64 (grains_of self.0 p.0 s.0) }
    {
        Grains(self.0.wrapping_mul(p.0).wrapping_mul(s.0))
    }

    // Kilowatts of movement at its price.
    pub fn moved(self, p: MovePrice) -> Grains
        ensures { result.0 ≡ int_wrap w64 (moved_grains self.0 p.0) }
    {
        Grains(self.0.wrapping_mul(p.0).wrapping_mul(3600))
    }
}
