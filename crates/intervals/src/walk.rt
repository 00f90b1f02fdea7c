// The walk: one loop over what the intervals ask, with the scan of the curve's steps inside, up to the first fault of checks 10, 6 and 7.
ghost use Rattle.std.specs.Prelude.{◌≡◌, ℤ, ◌+ℤ◌, ◌-ℤ◌};
ghost use Rattle.exact.specs.Whole.{Within};
ghost use Rattle.tariff.specs.Units.{grains_of};
ghost use Rattle.tariff.specs.Contributions.{curve_in};
ghost use Rattle.intervals.specs.Task.{run_from, run_on, signed_cost, energy_part, finished, outcomes_of, Fitting, Walkable};
ghost use Rattle.intervals.specs.Walk.{WalkedTo};

use crate::steps::{Run, Walked};
use crate::sums;
use tariff::{Check, Curve, Grains, Kw, Price, Seconds};
use tasks::Task;

pub fn curve_for(lower: bool, da: Curve, rt: Curve) -> Curve
    ensures { result ≡ curve_in lower da rt }
{
    if lower { da } else { rt }
}

// The cost so far, and the kilowatts from `x` up to `e` at one price.
pub fn cost_plus(cost: Grains, x: Kw, e: Kw, p: Price, s: Seconds) -> Grains
    requires { Within 4000000000000000 cost.0 × Within 2000000 x.0 × Within 2000000 e.0 × Within 1000000 p.0 × Within 900 s.0 }
    ensures { result.0 ≡ cost.0 +ℤ grains_of (e.0 -ℤ x.0) p.0 s.0 }
{
    sums::grains_plus(cost, sums::product(sums::kw_minus(e, x), p, s))
}

// A stretch is priced upward, from the lower of D and the limit.
pub fn run_from(t: Task) -> Run
    ensures { result ≡ run_from t }
{
    Run {
        at: units::kw_min(t.from, t.limit),
        cost: Grains(0),
    }
}

// The run goes on at a step's price to its end `e`, or to `high` where that comes first.
pub fn run_on(run: Run, high: Kw, e: Kw, p: Price, s: Seconds) -> Run
    requires { Within 4000000000000000 run.cost.0 × Within 2000000 run.at.0 × Within 2000000 high.0 × Within 2000000 e.0 × Within 1000000 p.0 × Within 900 s.0 }
    ensures { result ≡ run_on run high.0 e.0 p.0 s.0 }
{
    if units::below(run.at, e) {
        let up = units::kw_min(high, e);
        Run {
            at: up,
            cost: cost_plus(run.cost, run.at, up, p, s),
        }
    } else {
        run
    }
}

// The integral from D to the limit: taken downward it is the negative of the upward one.
pub fn signed_cost(t: Task, cost: Grains) -> Grains
    requires { Within 4000000000000000 cost.0 }
    ensures { result.0 ≡ signed_cost t cost.0 }
{
    if units::below(t.limit, t.from) {
        sums::grains_minus(Grains(0), cost)
    } else {
        cost
    }
}

// What an upper branch caps: D less the limit at the interval's price, the cost from D to the limit, and what is counted beside them.
pub fn energy_part(t: Task, cost: Grains) -> Grains
    requires { Fitting t × Within 4000000000000000 cost.0 }
    ensures { result.0 ≡ energy_part t cost.0 }
{
    let sold = sums::product(sums::kw_minus(t.from, t.limit), t.pen, t.s);
    let energy = sums::grains_plus(sold, signed_cost(t, cost));
    sums::grains_plus(energy, t.beside)
}

// The interval's contribution, from the cost of its stretch taken upward.
pub fn finish(t: Task, cost: Grains) -> Grains
    requires { Fitting t × Within 4000000000000000 cost.0 }
    ensures { result.0 ≡ finished t cost.0 }
{
    let energy = energy_part(t, cost);
    if t.lower {
        sums::grains_plus(energy, t.others)
    } else {
        sums::grains_plus(units::loss_or_zero(energy), t.others)
    }
}

// The first fault, whichever check stops a task or REACH, or every interval's contribution.
pub fn walk(tasks: [Task; 30], n: usize, da: Curve, rt: Curve) -> Walked
    requires { Walkable tasks n da rt }
    ensures { WalkedTo (outcomes_of da rt tasks) n result }
{
    let mut parts = [Grains(0); 30];
    let mut i: usize = 0;
    let found = 'hour: loop {
        if n <= i {
            break 'hour Ok(());
        }
        let place = i + 1;
        let t = tasks[i];
        let stop = t.stop;
        if let Err(check) = stop {
            break 'hour Err(check);
        }
        let c = curve_for(t.lower, da, rt);
        let high = units::kw_max(t.from, t.limit);
        let mut run = run_from(t);
        if units::below(run.at, high) {
            if units::below(run.at, c.start) {
                break 'hour Err(Check::Reach(place));
            }
            let mut j: usize = 0;
            'scan: loop {
                if c.n <= j {
                    break 'hour Err(Check::Reach(place));
                }
                run = run_on(run, high, c.to[j], c.at[j], t.s);
                if !units::below(run.at, high) {
                    break 'scan;
                }
                j += 1;
            }
        }
        parts[i] = finish(t, run.cost);
        i = place;
    };
    Walked { found, parts }
}
