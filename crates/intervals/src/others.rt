// The products other than energy: reserves, regulation, and the movement of regulation.
ghost use Rattle.std.specs.Prelude.{◌≡◌, true};
ghost use Rattle.exact.specs.Whole.{Within};
ghost use Rattle.tariff.specs.Sheet.{ahead_in_range, interval_in_range};
ghost use Rattle.tariff.specs.Contributions.{reserve, regulation, movement, other_than_energy};
ghost use Rattle.tariff.specs.Derate.{reduced};
ghost use Rattle.derate.specs.Five.{kw_five, Close};

use crate::sums;
use tariff::{DayAhead, Grains, Interval, Kw, MovePrice, Price, Seconds};

// A reserve below its schedule is bought back at the price and saves its bid; one above it is sold at the price.
pub fn reserve_part(d: Kw, live: Kw, p: Price, bid: Price, s: Seconds) -> Grains
    requires { Within 2000000 d.0 × Within 2000000 live.0 × Within 1000000 p.0 × Within 1000000 bid.0 × Within 900 s.0 }
    ensures { result.0 ≡ reserve d.0 live.0 p.0 bid.0 s.0 }
{
    let gap = sums::kw_minus(d, live);
    if units::below(live, d) {
        sums::product(gap, sums::price_minus(p, bid), s)
    } else {
        sums::product(gap, p, s)
    }
}

pub fn regulation_part(d: Kw, live: Kw, p: Price, bid: Price, live_bid: Price, s: Seconds) -> Grains
    requires { Within 2000000 d.0 × Within 2000000 live.0 × Within 1000000 p.0 × Within 1000000 bid.0 × Within 1000000 live_bid.0 × Within 900 s.0 }
    ensures { result.0 ≡ regulation d.0 live.0 p.0 bid.0 live_bid.0 s.0 }
{
    let gap = sums::kw_minus(d, live);
    if units::below(live, d) {
        sums::product(gap, sums::price_minus(p, bid), s)
    } else {
        sums::product(gap, units::price_or_zero(sums::price_minus(p, live_bid)), s)
    }
}

pub fn movement_part(mv: Kw, pmv: MovePrice, bmv: MovePrice) -> Grains
    requires { Within 2000000 mv.0 × Within 1000000 pmv.0 × Within 1000000 bmv.0 }
    ensures { result.0 ≡ movement mv.0 pmv.0 bmv.0 }
{
    sums::moved(mv, units::move_or_zero(sums::move_minus(pmv, bmv)))
}

// All that an interval contributes besides energy; `q` has the reduced schedules.
pub fn others(a: DayAhead, v: Interval, q: [Kw; 5]) -> Grains
    requires { (ahead_in_range a ≡ true) × (interval_in_range v ≡ true) × (q ≡ kw_five (reduced a v)) × Close q }
    ensures { result.0 ≡ other_than_energy a v }
{
    let s = v.s;
    let reg = regulation_part(q[1], v.reg, v.preg, a.breg, v.breg, s);
    let r1 = reserve_part(q[2], v.r1, v.p1, a.b1, s);
    let r2 = reserve_part(q[3], v.r2, v.p2, a.b2, s);
    let r3 = reserve_part(q[4], v.r3, v.p3, a.b3, s);
    let sold = sums::grains_plus(sums::grains_plus(sums::grains_plus(reg, r1), r2), r3);
    sums::grains_minus(sold, movement_part(v.mv, v.pmv, v.bmv))
}
