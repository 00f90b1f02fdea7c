// What an interval asks of the walk over an hour's intervals, and what one of an internal controllable line asks. Any values are taken:
// nothing is asked of the caller.
#![tactic(auto)]

ghost use Rattle.std.specs.Prelude.{◌≡◌, ◌-ℤ◌};
ghost use Rattle.exact.specs.Whole.{Within};
ghost use Rattle.tariff.specs.Units.{grains_of};
ghost use Rattle.tasks.specs.Task.{idle_task, icl_task_of};

use tariff::{Check, Grains, IclInterval, Kw, Price, Seconds};

// To price the kilowatts from `from` to `limit`, on the day-ahead curve if `lower`. What the interval gives besides is counted inside the cap
// of an upper branch (`beside`), or outside of it (`others`). Where a check stops it, `stop` has the fault.
#[derive(Clone, Copy)]
pub struct Task {
    pub stop: Result<(), Check>,
    pub lower: bool,
    pub from: Kw,
    pub limit: Kw,
    pub pen: Price,
    pub s: Seconds,
    pub beside: Grains,
    pub others: Grains,
}

// Nothing to price and nothing to add: what a lagging interval asks, one of an excluded hour, and one that a check stops.
pub fn idle(stop: Result<(), Check>) -> Task
    ensures { result ≡ idle_task stop }
{
    Task {
        stop,
        lower: false,
        from: Kw(0),
        limit: Kw(0),
        pen: Price(0),
        s: Seconds(0),
        beside: Grains(0),
        others: Grains(0),
    }
}

// What the withdrawal bus adds: (AEW - DASW) x LBMPW for the interval's seconds.
fn withdrawn(dasw: Kw, aew: Kw, pout: Price, s: Seconds) -> Grains
    requires { Within 2000000 dasw.0 × Within 2000000 aew.0 × Within 1000000 pout.0 × Within 900 s.0 }
    ensures { result.0 ≡ grains_of (aew.0 -ℤ dasw.0) pout.0 s.0 }
{
    (aew - dasw).priced(pout, s)
}

// An internal controllable line's interval prices the kilowatts between DASI and AEI, on the curve that its real-time schedule chooses, and
// has its withdrawal inside the cap. One with a number out of its range asks nothing: its hour is refused for that.
#[tactic(auto, unfolding(crate::specs::Task::icl_task_of))]
pub fn icl_task(dasi: Kw, dasw: Kw, v: IclInterval) -> Task
    ensures { result ≡ icl_task_of dasi dasw v }
{
    if !ranges::icl_ahead_in_range(dasi, dasw) || !ranges::icl_interval_in_range(v) {
        return idle(Ok(()));
    }
    let capped = withdrawn(dasw, v.aew, v.pout, v.s);
    let uncapped = Grains(0);
    Task {
        stop: Ok(()),
        lower: v.en < dasi,
        from: dasi,
        limit: v.aei,
        pen: v.pin,
        s: v.s,
        beside: capped,
        others: uncapped,
    }
}
