// What the intervals of an hour ask of the walk: checks 10 and 6, and the stretch of kilowatts that each has to price.
ghost use Rattle.std.specs.Prelude.{◌≡◌, true, ◌≤◌};
ghost use Rattle.exact.specs.Whole.{Within};
ghost use Rattle.tariff.specs.declared.Expected.{Expected};
ghost use Rattle.tariff.specs.Sheet.{ahead_in_range, interval_in_range};
ghost use Rattle.tariff.specs.Contributions.{capped};
ghost use Rattle.tariff.specs.Reply.{clear};
ghost use Rattle.tariff.specs.Hour.{form, range};
ghost use Rattle.intervals.specs.Task.{derated_task, task_of, asked, TasksOf};

use crate::{others, sums};
use points::Standing;
use tariff::{Check, Curve, DayAhead, Grains, Hour, Interval, Kw};
use tasks::Task;

// Output above the schedule and its compensable overgeneration is not counted, where the schedule is above 0.
pub fn capped_output(live: Kw, ae: Kw, co: Kw) -> Kw
    requires { Within 2000000 live.0 × Within 2000000 co.0 }
    ensures { result.0 ≡ capped live.0 ae.0 co.0 }
{
    if units::below(Kw(0), live) {
        units::kw_min(ae, sums::kw_plus(live, co))
    } else {
        ae
    }
}

// What an interval with its operating point `e` asks: its derate, and then the stretch between D and its limit.
pub fn derated_task(a: DayAhead, v: Interval, e: Kw, place: usize) -> Task
    requires { (ahead_in_range a ≡ true) × (interval_in_range v ≡ true) }
    ensures { result ≡ derated_task a v place e.0 }
{
    let Some(schedules) = derate::derate_of(a, v) else {
        return tasks::idle(Err(Check::Derate(place)));
    };
    let from = schedules[0];
    let live = v.en;
    let counted = capped_output(live, v.ae, v.co);
    let limit = limits::limit_of(from, live, e, counted);
    let pen = v.pen;
    let s = v.s;
    Task {
        stop: Ok(()),
        lower: limits::is_lower(from, live),
        from,
        limit,
        pen,
        s,
        beside: Grains(0),
        others: others::others(a, v, schedules),
    }
}

// What an interval asks: nothing if it lags (25.4), else its operating point, and then the rest.
pub fn task_of(rt: Curve, a: DayAhead, v: Interval, place: usize) -> Task
    requires { (rt.n ≤ 12) × (ahead_in_range a ≡ true) × (interval_in_range v ≡ true) }
    ensures { result ≡ task_of rt a v place }
{
    match points::standing_of(rt, v) {
        Standing::Lags => tasks::idle(Ok(())),
        Standing::Pointless => tasks::idle(Err(Check::Point(place))),
        Standing::At(e) => derated_task(a, v, e, place),
    }
}

// What each interval asks, first to last; the block's numbers are in range on some day. An excluded hour asks checks 10, 6 and 7 of no
// interval, and each contributes nothing.
pub fn tasks_of(h: Hour, excluded: bool) -> [Task; 30]
    requires { (form h ≡ clear) × (expected : Expected) × (range h expected ≡ clear) }
    ensures { TasksOf (asked h excluded) h.n result }
{
    let mut tasks = [tasks::idle(Ok(())); 30];
    if excluded {
        return tasks;
    }
    let mut i: usize = 0;
    while i < h.n {
        let place = i + 1;
        tasks[i] = task_of(h.rt, h.ahead, h.iv[i], place);
        i = place;
    }
    tasks
}
