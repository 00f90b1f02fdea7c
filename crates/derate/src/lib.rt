// The derate of an interval (25.5), for any figures: the schedules that every later rule reads, or a reduction that has no room.
#![tactic(auto)]

ghost use Rattle.std.specs.Prelude.{◌≡◌};
ghost use Rattle.derate.specs.Derated.{derate_of};

use crate::five::{Reduction, Schedules};
use tariff::{DayAhead, Interval, Kw};

mod cuts;
mod five;

// The five schedules of an interval after its derate, or none where the reduction has no room, or a figure is out of range. Any values in any field
// are answered. The names are 25.5's: DAS, RTS, POTRED, REDtot, and RED for the shares.
pub fn derate_of(a: DayAhead, v: Interval) -> Option<[Kw; 5]>
    ensures { result ≡ derate_of a v }
{
    let das = [a.en, a.reg, a.r1, a.r2, a.r3];
    let Some(limit) = v.uol else {
        return Some(das);
    };
    let das = Schedules::of(das)?;
    let rts = Schedules::of([v.en, v.reg, v.r1, v.r2, v.r3])?;
    if !five::is_power(limit) {
        return None;
    }
    let redtot = cuts::cut_from(das.sum_five(), limit);
    let red = Reduction::of(das.potentials(rts), redtot)?;
    Some(das.reduce(red.shares()))
}
