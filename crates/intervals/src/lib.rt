// The contributions of an hour's intervals, behind every check of an hour but ROOM: everything of the hour call but the lent row. So of a generator's hour and
// of an internal controllable line's. And what the block of a curtailed import gives to its day, behind checks 1, 2, 3 and 5.
#![tactic(auto)]

ghost use Rattle.std.specs.Prelude.{◌≡◌, ◌≤◌};
ghost use Rattle.exact.specs.Whole.{sum_to};
ghost use Rattle.tariff.specs.Reply.{clear};
ghost use Rattle.tariff.specs.Import.{import_fault, import_part, worth_by, worth_told};
ghost use Rattle.intervals.specs.Task.{outcomes_of, Walkable};
ghost use Rattle.intervals.specs.Walk.{grains_at, Bounded, refused_by, ContributionsBy, ContributionsOf, IclContributionsOf};

use tariff::{Check, Curve, Expected, Grains, Hour, IclHour, ImportHour};
use tasks::Task;

mod controllable;
mod curtailed;
mod others;
mod prepare;
mod steps;
mod sums;
mod walk;

// The first fault of every check of an hour but ROOM; where there is none, the contributions of the hour's intervals, first to last, and their sum.
#[derive(Clone, Copy)]
pub struct Contributions {
    pub found: Result<(), Check>,
    pub parts: [Grains; 30],
    pub sum: Grains,
}

// The sum of the first `n` contributions.
fn sum_of(parts: [Grains; 30], n: usize) -> Grains
    requires { (n ≤ 30) × Bounded parts }
    ensures { result.0 ≡ sum_to (grains_at parts) n }
{
    let mut sum = Grains(0);
    let mut i: usize = 0;
    while i < n {
        let g = parts[i];
        sum = sums::grains_plus(sum, g);
        i += 1;
    }
    sum
}

// What a refused hour comes to: nothing.
fn refused_by(found: Result<(), Check>) -> Contributions
    ensures { result ≡ refused_by found }
{
    Contributions {
        found,
        parts: [Grains(0); 30],
        sum: Grains(0),
    }
}

// What the tasks of an hour's intervals come to, where no check over its block refuses it.
fn worked_out(tasks: [Task; 30], n: usize, da: Curve, rt: Curve) -> Contributions
    requires { Walkable tasks n da rt }
    ensures { ContributionsBy clear (outcomes_of da rt tasks) n result }
{
    let w = walk::walk(tasks, n, da, rt);
    let found = w.found;
    if let Err(check) = found {
        return refused_by(Err(check));
    }
    let parts = w.parts;
    let sum = sum_of(parts, n);
    Contributions {
        found: Ok(()),
        parts,
        sum,
    }
}

// Judges a record by every check of an hour but ROOM and works out its intervals. Any values in any field are judged.
pub fn work_out(h: Hour, excluded: bool, expected: Expected) -> Contributions
    ensures { ContributionsOf h excluded expected result }
{
    let fault = checks::block_fault(h, expected);
    if let Err(check) = fault {
        return refused_by(Err(check));
    }
    let tasks = prepare::tasks_of(h, excluded);
    worked_out(tasks, h.n, h.da, h.rt)
}

// The same of an internal controllable line's hour, by checks 1 to 5 and 7.
pub fn work_out_icl(h: IclHour, excluded: bool, expected: Expected) -> Contributions
    ensures { IclContributionsOf h excluded expected result }
{
    let fault = checks::icl_fault(h, expected);
    if let Err(check) = fault {
        return refused_by(Err(check));
    }
    let tasks = controllable::tasks_of(h, excluded);
    worked_out(tasks, h.n, h.da, h.rt)
}

// What the block at place k gives to an import's day of so many hours: the sum of its counting intervals, or 0 where that is below 0.
pub fn import_part(h: ImportHour, cts: i64, k: usize, hours: usize) -> Result<Grains, Check>
    ensures { worth_told result ≡ worth_by (import_fault hours h k) (import_part cts h) }
{
    checks::import_fault(h, k, hours)?;
    let sum = curtailed::curtailed_sum(h, cts);
    Ok(units::gain_or_zero(sum))
}
