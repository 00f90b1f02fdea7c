// What the intervals of an internal controllable line's hour ask of the walk.
ghost use Rattle.std.specs.Prelude.{◌≤◌};
ghost use Rattle.intervals.specs.Task.{icl_asked, TasksOf};

use tariff::IclHour;
use tasks::Task;

// What each interval asks, first to last. An hour that is not marked asks check 7 of no interval, and each contributes nothing.
pub fn tasks_of(h: IclHour, excluded: bool) -> [Task; 30]
    requires { h.n ≤ 30 }
    ensures { TasksOf (icl_asked h excluded) h.n result }
{
    let mut tasks = [tasks::idle(Ok(())); 30];
    if excluded {
        return tasks;
    }
    let mut i: usize = 0;
    while i < h.n {
        tasks[i] = tasks::icl_task(h.dasi, h.dasw, h.iv[i]);
        i += 1;
    }
    tasks
}
