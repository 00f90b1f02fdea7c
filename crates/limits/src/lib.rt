// What an interval asks before it is priced, for any values: whether it lags, which energy branch it takes, and that branch's limit.
// `d`, `live`, `e` and `a` are document 01's D, R, E and A.
#![tactic(auto)]

ghost use Rattle.std.specs.Prelude.{◌≡◌};
ghost use Rattle.tariff.specs.Eligible.{lags};
ghost use Rattle.tariff.specs.Contributions.{is_lower, lower_limit, is_inject, is_withdraw, upper_limit, limit_of};

use tariff::{Interval, Kw};

// An interval at or below its limit contributes nothing (25.4), whatever its loss would be; the raw output is meant, not the capped one.
pub fn lags(v: Interval) -> bool
    ensures { result ≡ lags v }
{
    v.ae <= v.lim
}

pub fn is_lower(d: Kw, live: Kw) -> bool
    ensures { result ≡ is_lower d.0 live.0 }
{
    let zero = Kw(0);
    (zero < d && live < d) || (d < zero && d < live)
}

fn lower_limit(d: Kw, live: Kw, e: Kw, a: Kw) -> Kw
    ensures { result.0 ≡ lower_limit d.0 live.0 e.0 a.0 }
{
    let zero = Kw(0);
    if zero < d {
        if live < e {
            live.max(a.min(e)).min(d).max(zero)
        } else {
            live.min(a.max(e)).min(d).max(zero)
        }
    } else {
        d.max(a).max(e).min(live).min(zero)
    }
}

fn is_inject(d: Kw, live: Kw) -> bool
    ensures { result ≡ is_inject d.0 live.0 }
{
    let zero = Kw(0);
    zero < d || (d == zero && zero < live)
}

fn is_withdraw(d: Kw, live: Kw) -> bool
    ensures { result ≡ is_withdraw d.0 live.0 }
{
    let zero = Kw(0);
    d < zero || (d == zero && live < zero)
}

#[tactic(auto, using(tariff::proofs::Order::min_kw, tariff::proofs::Order::max_kw), unfolding(tariff::specs::Contributions::upper_limit))]
fn upper_limit(d: Kw, live: Kw, e: Kw, a: Kw) -> Kw
    ensures { result.0 ≡ upper_limit d.0 live.0 e.0 a.0 }
{
    if is_inject(d, live) {
        if e <= live && d <= e {
            live.min(a.max(e))
        } else {
            live.max(a.min(e))
        }
    } else if is_withdraw(d, live) {
        live.min(a.max(e))
    } else {
        Kw(0)
    }
}

// The limit of the branch that is taken: LL or UL.
pub fn limit_of(d: Kw, live: Kw, e: Kw, a: Kw) -> Kw
    ensures { result.0 ≡ limit_of d.0 live.0 e.0 a.0 }
{
    if is_lower(d, live) {
        lower_limit(d, live, e, a)
    } else {
        upper_limit(d, live, e, a)
    }
}
