// Comparisons and choices of the units, for any values: each answers as its definition says and asks nothing of its caller.
#![tactic(auto)]

ghost use Rattle.std.specs.Prelude.{◌≡◌, pos, nat_abs};
ghost use Rattle.std.specs.Int.Signed.{lt_z, le_z};
ghost use Rattle.exact.specs.Whole.{min_z, max_z, eq_z};
ghost use Rattle.tariff.specs.Units.{cents_of};
ghost use Rattle.tariff.specs.Sheet.{lies_in};

use tariff::{Cents, Grains, Kw, MovePrice, Price};

pub fn below(a: Kw, b: Kw) -> bool
    ensures { result ≡ lt_z a.0 b.0 }
{
    a < b
}

pub fn same(a: Kw, b: Kw) -> bool
    ensures { result ≡ eq_z a.0 b.0 }
{
    a == b
}

pub fn price_at_most(a: Price, b: Price) -> bool
    ensures { result ≡ le_z a.0 b.0 }
{
    a <= b
}

#[tactic(auto, using(tariff::proofs::Order::min_kw))]
pub fn kw_min(a: Kw, b: Kw) -> Kw
    ensures { result.0 ≡ min_z a.0 b.0 }
{
    a.min(b)
}

#[tactic(auto, using(tariff::proofs::Order::max_kw))]
pub fn kw_max(a: Kw, b: Kw) -> Kw
    ensures { result.0 ≡ max_z a.0 b.0 }
{
    a.max(b)
}

#[tactic(auto, using(tariff::proofs::Order::max_price))]
pub fn price_or_zero(p: Price) -> Price
    ensures { result.0 ≡ max_z p.0 (pos 0) }
{
    p.max(Price(0))
}

#[tactic(auto, using(tariff::proofs::Order::max_move_price))]
pub fn move_or_zero(p: MovePrice) -> MovePrice
    ensures { result.0 ≡ max_z p.0 (pos 0) }
{
    p.max(MovePrice(0))
}

// What an upper branch takes: a loss, or nothing.
#[tactic(auto, using(tariff::proofs::Order::min_grains))]
pub fn loss_or_zero(g: Grains) -> Grains
    ensures { result.0 ≡ min_z g.0 (pos 0) }
{
    g.min(Grains(0))
}

// What an import's hour gives: a gain, or nothing.
#[tactic(auto, using(tariff::proofs::Order::max_grains))]
pub fn gain_or_zero(g: Grains) -> Grains
    ensures { result.0 ≡ max_z g.0 (pos 0) }
{
    g.max(Grains(0))
}

// A cent in grains, and half of one.
const A_CENT: u64 = 3600000;

const HALF_A_CENT: u64 = 1800000;

// The nearest cent, a half going up; a sum below zero pays nothing.
#[tactic(auto, unfolding(tariff::specs::Units::cents_of))]
pub fn cents_of(g: Grains) -> Cents
    ensures { result.0 ≡ cents_of g.0 }
{
    let owed = g.0.max(0) as u64;
    Cents(((owed + HALF_A_CENT) / A_CENT) as i64)
}

// Whether a number lies in a range, both ends included.
pub fn lies_in(x: i64, low: i64, high: i64) -> bool
    ensures { result ≡ lies_in low high x }
{
    (low..=high).contains(&x)
}

// A number without its sign, as it is printed.
pub fn magnitude(v: i64) -> u64
    ensures { result ≡ nat_abs v }
{
    v.unsigned_abs()
}
