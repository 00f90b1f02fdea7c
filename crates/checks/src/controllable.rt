// Checks 2 and 5 of an internal controllable line's hour, each over the whole record.
ghost use Rattle.std.specs.Prelude.{◌≡◌, ℕ, ◌<◌};
ghost use Rattle.exact.specs.Whole.{Within};
ghost use Rattle.tariff.specs.Reply.{shown, clear};
ghost use Rattle.tariff.specs.Checks.{form_of, range_of, seconds_of};
ghost use Rattle.tariff.specs.Controllable.{icl_interval, icl_parts};

use crate::faults;
use tariff::{Check, Expected, IclHour, Seconds};

// The first line with a number out of range. Interval i, from 0, stands on line i + 4.
pub fn range_fault(h: IclHour, expected: Expected) -> Result<(), Check>
    requires { form_of (icl_parts h) ≡ clear }
    ensures { shown result ≡ range_of (icl_parts h) expected }
{
    let hours = faults::hours_around(expected);
    if !(ranges::is_hour(h.hour, hours) & ranges::icl_ahead_in_range(h.dasi, h.dasw)) {
        return Err(Check::Range(1));
    }
    if !ranges::curve_in_range(h.da) {
        return Err(Check::Range(2));
    }
    if !ranges::curve_in_range(h.rt) {
        return Err(Check::Range(3));
    }
    let n = h.n;
    let iv = h.iv;
    let mut i: usize = 0;
    while i < n {
        let v = iv[i];
        if !ranges::icl_interval_in_range(v) {
            return Err(Check::Range(i + 4));
        }
        i += 1;
    }
    Ok(())
}

pub fn seconds_fault(h: IclHour) -> Result<(), Check>
    requires { (form_of (icl_parts h) ≡ clear) × ((i : ℕ) → i < h.n → Within 900 (icl_interval h i).s.0) }
    ensures { shown result ≡ seconds_of (icl_parts h) }
{
    let n = h.n;
    let iv = h.iv;
    let mut sum = Seconds(0);
    let mut i: usize = 0;
    while i < n {
        let v = iv[i];
        sum = faults::seconds_plus(sum, v.s);
        i += 1;
    }
    faults::sum_fault(sum)
}
