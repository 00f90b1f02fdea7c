// The range of each number of a record: of an hour's, of an internal controllable line's, and of an import's. Any values are judged: nothing is asked of the caller.
#![tactic(auto)]

ghost use Rattle.std.specs.Prelude.{◌≡◌, ◌&&◌, take};
ghost use Rattle.std.specs.List.{list_all, zip};
ghost use Rattle.tariff.specs.Sheet.{is_count, hours_by, is_seconds, is_hour, is_power, is_capacity, is_bid, is_price, curve_in_range, uol_in_range, eop_in_range, ahead_in_range, interval_in_range, is_mark};
ghost use Rattle.tariff.specs.Controllable.{icl_ahead_in_range, icl_interval_in_range};

use tariff::{Curve, DayAhead, IclInterval, Interval, Kw, LONGEST_DAY, Price, Seconds};

// Whether a day can have so many hours.
pub fn is_count(count: i64) -> bool
    ensures { result ≡ is_count count }
{
    (23..=25).contains(&count)
}

// The hours of a day by the count that its text says. A count that no day has is refused, and the day taken as a usual one.
pub fn hours_by(count: i64) -> usize
    ensures { result ≡ hours_by count }
{
    if is_count(count) {
        count as usize
    } else {
        tariff::USUAL_DAY
    }
}

pub fn is_seconds(s: Seconds) -> bool
    ensures { result ≡ is_seconds s.0 }
{
    (1..=900).contains(&s.0)
}

// An hour that a block may say on a day of so many hours. Hour 23 of a day of 23 is in range: there it is out of order.
pub fn is_hour(h: i64, hours: usize) -> bool
    ensures { result ≡ is_hour hours h }
{
    let last = if hours == LONGEST_DAY { 24 } else { 23 };
    (0..=last).contains(&h)
}

fn is_power(k: Kw) -> bool
    ensures { result ≡ is_power k.0 }
{
    (-2000000..=2000000).contains(&k.0)
}

pub fn is_capacity(k: Kw) -> bool
    ensures { result ≡ is_capacity k.0 }
{
    (0..=2000000).contains(&k.0)
}

pub fn is_price(p: Price) -> bool
    ensures { result ≡ is_price p.0 }
{
    (-1000000..=1000000).contains(&p.0)
}

fn are_capacities(ks: &[Kw]) -> bool
    ensures { result ≡ list_all (λ k. is_capacity k.0) ks.now }
{
    ks.iter().all(|k| is_capacity(*k))
}

// Bids, and the prices of movement.
fn are_bids(cents: &[i64]) -> bool
    ensures { result ≡ list_all is_bid cents.now }
{
    cents.iter().all(|c| (0..=1000000).contains(c))
}

fn are_prices(ps: &[Price]) -> bool
    ensures { result ≡ list_all (λ p. is_price p.0) ps.now }
{
    ps.iter().all(|p| is_price(*p))
}

pub fn is_mark(m: i64) -> bool
    ensures { result ≡ is_mark m }
{
    (0..=1).contains(&m)
}

#[tactic(auto, unfolding(tariff::specs::Sheet::ahead_in_range))]
pub fn ahead_in_range(a: DayAhead) -> bool
    ensures { result ≡ ahead_in_range a }
{
    is_power(a.en)
        && are_capacities(&[a.reg, a.r1, a.r2, a.r3])
        && are_bids(&[a.breg.0, a.b1.0, a.b2.0, a.b3.0])
}

// Each of the first `n` steps, by its end and its price.
fn steps_in_range(to: &[Kw], at: &[Price], n: usize) -> bool
    ensures { result ≡ list_all (λ step. is_power step.0.0 && is_price step.1.0) (take n (zip to.now at.now)) }
{
    to.iter()
        .zip(at)
        .take(n)
        .all(|(end, price)| is_power(*end) && is_price(*price))
}

// A record may say a count above 12, which is FORM's to refuse: behind its 12 entries a curve has no number to judge.
#[tactic(auto, unfolding(tariff::specs::Sheet::curve_in_range))]
pub fn curve_in_range(c: Curve) -> bool
    ensures { result ≡ curve_in_range c }
{
    is_power(c.start) && steps_in_range(&c.to, &c.at, c.n)
}

// The numbers of an interval that are power.
fn powers_in_range(v: Interval) -> bool
    ensures { result ≡ (is_power v.en.0 && is_power v.ae.0 && eop_in_range v.eop && is_power v.lim.0) }
{
    is_power(v.en) && is_power(v.ae) && v.eop.is_none_or(is_power) && is_power(v.lim)
}

fn capacities_in_range(v: Interval) -> bool
    ensures { result ≡ (is_capacity v.r1.0 && is_capacity v.r2.0 && is_capacity v.r3.0 && is_capacity v.reg.0 && is_capacity v.co.0 && is_capacity v.mv.0) }
{
    are_capacities(&[v.r1, v.r2, v.r3, v.reg, v.co, v.mv])
}

fn bids_in_range(v: Interval) -> bool
    ensures { result ≡ (is_bid v.breg.0 && is_bid v.pmv.0 && is_bid v.bmv.0) }
{
    are_bids(&[v.breg.0, v.pmv.0, v.bmv.0])
}

fn prices_in_range(v: Interval) -> bool
    ensures { result ≡ (is_price v.pen.0 && is_price v.preg.0 && is_price v.p1.0 && is_price v.p2.0 && is_price v.p3.0) }
{
    are_prices(&[v.pen, v.preg, v.p1, v.p2, v.p3])
}

#[tactic(auto, unfolding(tariff::specs::Sheet::interval_in_range))]
pub fn interval_in_range(v: Interval) -> bool
    ensures { result ≡ interval_in_range v }
{
    is_seconds(v.s)
        && powers_in_range(v)
        && capacities_in_range(v)
        && v.uol.is_none_or(is_capacity)
        && bids_in_range(v)
        && prices_in_range(v)
}

// The schedules on line 1 of an internal controllable line's block.
#[tactic(auto, unfolding(tariff::specs::Controllable::icl_ahead_in_range))]
pub fn icl_ahead_in_range(dasi: Kw, dasw: Kw) -> bool
    ensures { result ≡ icl_ahead_in_range dasi dasw }
{
    is_power(dasi) && is_power(dasw)
}

// An interval line of it.
#[tactic(auto, unfolding(tariff::specs::Controllable::icl_interval_in_range))]
pub fn icl_interval_in_range(v: IclInterval) -> bool
    ensures { result ≡ icl_interval_in_range v }
{
    is_seconds(v.s)
        && is_power(v.en)
        && is_power(v.aei)
        && is_power(v.aew)
        && is_price(v.pin)
        && is_price(v.pout)
}
