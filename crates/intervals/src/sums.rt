// Sums, differences and products of the units, one operation to a function. Kilowatts, prices and grains are types of their own,
// so none can be added to another, and only a product of kilowatts and a price with seconds makes grains; movement at its price
// does as well.
ghost use Rattle.std.specs.Prelude.{◌≡◌, ℤ, ◌+ℤ◌, ◌-ℤ◌};
ghost use Rattle.exact.specs.Whole.{Within};
ghost use Rattle.tariff.specs.Units.{grains_of, moved_grains};

use tariff::{Grains, Kw, MovePrice, Price, Seconds};

pub fn kw_minus(a: Kw, b: Kw) -> Kw
    requires { Within 2000000 a.0 × Within 2000000 b.0 }
    ensures { result.0 ≡ a.0 -ℤ b.0 }
{
    Kw(a.0 - b.0)
}

pub fn kw_plus(a: Kw, b: Kw) -> Kw
    requires { Within 2000000 a.0 × Within 2000000 b.0 }
    ensures { result.0 ≡ a.0 +ℤ b.0 }
{
    Kw(a.0 + b.0)
}

pub fn price_minus(a: Price, b: Price) -> Price
    requires { Within 1000000 a.0 × Within 1000000 b.0 }
    ensures { result.0 ≡ a.0 -ℤ b.0 }
{
    Price(a.0 - b.0)
}

pub fn move_minus(a: MovePrice, b: MovePrice) -> MovePrice
    requires { Within 1000000 a.0 × Within 1000000 b.0 }
    ensures { result.0 ≡ a.0 -ℤ b.0 }
{
    MovePrice(a.0 - b.0)
}

// Kilowatts at a price for some seconds: up to 4,000,000 x 2,000,000 x 900 grains.
pub fn product(k: Kw, p: Price, s: Seconds) -> Grains
    requires { Within 4000000 k.0 × Within 2000000 p.0 × Within 900 s.0 }
    ensures { result.0 ≡ grains_of k.0 p.0 s.0 }
{
    Grains(k.0 * p.0 * s.0)
}

pub fn moved(k: Kw, p: MovePrice) -> Grains
    requires { Within 2000000 k.0 × Within 2000000 p.0 }
    ensures { result.0 ≡ moved_grains k.0 p.0 }
{
    Grains(k.0 * p.0 * 3600)
}

pub fn grains_plus(a: Grains, b: Grains) -> Grains
    requires { Within 4000000000000000000 a.0 × Within 4000000000000000000 b.0 }
    ensures { result.0 ≡ a.0 +ℤ b.0 }
{
    Grains(a.0 + b.0)
}

pub fn grains_minus(a: Grains, b: Grains) -> Grains
    requires { Within 4000000000000000000 a.0 × Within 4000000000000000000 b.0 }
    ensures { result.0 ≡ a.0 -ℤ b.0 }
{
    Grains(a.0 - b.0)
}
