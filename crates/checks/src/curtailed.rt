// Checks 1, 2, 3 and 5 of an import's block, each over the whole record.
ghost use Rattle.std.specs.Prelude.{◌≡◌, ◌&&◌, ℕ, ◌<◌, pos};
ghost use Rattle.exact.specs.Whole.{Within, eq_z};
ghost use Rattle.tariff.specs.Sheet.{is_hour, is_capacity, is_price};
ghost use Rattle.tariff.specs.Reply.{shown, clear};
ghost use Rattle.tariff.specs.Import.{curtailed, curtailed_in_range, import_form, import_range, import_order, import_seconds};

use crate::faults;
use tariff::{Check, Curtailed, ImportHour, Kw, Price, Seconds};

pub fn form_fault(h: ImportHour) -> Result<(), Check>
    ensures { shown result ≡ import_form h }
{
    if 30 < h.n {
        Err(Check::Form(32))
    } else {
        Ok(())
    }
}

// An interval line.
pub fn line_in_range(v: Curtailed) -> bool
    ensures { result ≡ curtailed_in_range v }
{
    let mark = ranges::is_seconds(v.s) & ranges::is_mark(v.cut);
    let power = ranges::is_capacity(v.prof) & ranges::is_capacity(v.rten);
    let prices = ranges::is_price(v.lbmp) & ranges::is_price(v.bid) & ranges::is_price(v.def);
    mark & power & prices
}

// Line 1.
pub fn first_in_range(hour: i64, den: Kw, dec: Price, hours: usize) -> bool
    ensures { result ≡ (is_hour hours hour && is_capacity den.0 && is_price dec.0) }
{
    ranges::is_hour(hour, hours) & ranges::is_capacity(den) & ranges::is_price(dec)
}

// The first line with a number out of range. Interval i, from 0, stands on line i + 2.
pub fn range_fault(h: ImportHour, hours: usize) -> Result<(), Check>
    requires { import_form h ≡ clear }
    ensures { shown result ≡ import_range hours h }
{
    if !first_in_range(h.hour, h.den, h.dec, hours) {
        return Err(Check::Range(1));
    }
    let n = h.n;
    let iv = h.iv;
    let mut i: usize = 0;
    while i < n {
        let v = iv[i];
        if !line_in_range(v) {
            return Err(Check::Range(i + 2));
        }
        i += 1;
    }
    Ok(())
}

// A place may be any number, and an hour below 0 is none.
pub fn is_place(hour: i64, k: usize) -> bool
    ensures { result ≡ eq_z hour (pos k) }
{
    if hour < 0 {
        return false;
    }
    (hour as usize) == k
}

pub fn order_fault(h: ImportHour, k: usize) -> Result<(), Check>
    ensures { shown result ≡ import_order h k }
{
    if is_place(h.hour, k) {
        Ok(())
    } else {
        Err(Check::Order)
    }
}

pub fn seconds_fault(h: ImportHour) -> Result<(), Check>
    requires { (import_form h ≡ clear) × ((i : ℕ) → i < h.n → Within 900 (curtailed h i).s.0) }
    ensures { shown result ≡ import_seconds h }
{
    let n = h.n;
    let iv = h.iv;
    let mut sum = Seconds(0);
    let mut i: usize = 0;
    while i < n {
        let v = iv[i];
        sum = faults::seconds_plus(sum, v.s);
        i += 1;
    }
    faults::sum_fault(sum)
}
