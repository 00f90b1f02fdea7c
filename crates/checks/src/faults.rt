// Each of the checks 1 to 5, over the whole record. What reads no more than curves, counts and the hour serves every kind of hour.
ghost use Rattle.std.specs.Prelude.{◌≡◌, ℕ, ◌<◌, ◌≤◌, pos, ◌+ℤ◌};
ghost use Rattle.exact.specs.Whole.{Within, eq_z};
ghost use Rattle.tariff.specs.Sheet.{curve_keeps};
ghost use Rattle.tariff.specs.Reply.{shown, clear, unless, ◌then◌};
ghost use Rattle.tariff.specs.Checks.{hours_around, form_in, order_in, curves_in};
ghost use Rattle.tariff.specs.Hour.{interval, form, range, seconds_sum};

use tariff::{Check, Curve, Expected, Hour, Kw, LONGEST_DAY, Seconds};

pub fn form_fault(da: Curve, rt: Curve, n: usize) -> Result<(), Check>
    ensures { shown result ≡ form_in da rt n }
{
    if 12 < da.n {
        return Err(Check::Form(2));
    }
    if 12 < rt.n {
        return Err(Check::Form(3));
    }
    if 30 < n {
        return Err(Check::Form(34));
    }
    Ok(())
}

// The hours of the day that a block stands in; one that stands in none may say any hour of the longest.
pub fn hours_around(expected: Expected) -> usize
    ensures { result ≡ hours_around expected }
{
    match expected {
        Expected::Any => LONGEST_DAY,
        Expected::Says(_, hours) => hours,
    }
}

// The first line with a number out of range. Interval i, from 0, stands on line i + 4.
pub fn range_fault(h: Hour, expected: Expected) -> Result<(), Check>
    requires { form h ≡ clear }
    ensures { shown result ≡ range h expected }
{
    let hours = hours_around(expected);
    if !(ranges::is_hour(h.hour, hours) & ranges::ahead_in_range(h.ahead)) {
        return Err(Check::Range(1));
    }
    if !ranges::curve_in_range(h.da) {
        return Err(Check::Range(2));
    }
    if !ranges::curve_in_range(h.rt) {
        return Err(Check::Range(3));
    }
    let n = h.n;
    let iv = h.iv;
    let mut i: usize = 0;
    while i < n {
        let v = iv[i];
        if !ranges::interval_in_range(v) {
            return Err(Check::Range(i + 4));
        }
        i += 1;
    }
    Ok(())
}

pub fn same_hour(a: i64, b: i64) -> bool
    ensures { result ≡ eq_z a b }
{
    a == b
}

pub fn order_fault(said: i64, expected: Expected) -> Result<(), Check>
    ensures { shown result ≡ order_in said expected }
{
    match expected {
        Expected::Any => Ok(()),
        Expected::Says(hour, _) => {
            if same_hour(said, hour) {
                Ok(())
            } else {
                Err(Check::Order)
            }
        }
    }
}

// Ends rise strictly; from the third step on no price is below the one before.
pub fn curve_keeps(c: Curve) -> bool
    requires { c.n ≤ 12 }
    ensures { result ≡ curve_keeps c }
{
    let n = c.n;
    if n == 0 {
        return units::same(c.start, Kw(0));
    }
    let to = c.to;
    let at = c.at;
    let mut begin = c.start;
    let mut j: usize = 0;
    while j < n {
        let end = to[j];
        if !units::below(begin, end) {
            return false;
        }
        if 2 <= j {
            if !units::price_at_most(at[j - 1], at[j]) {
                return false;
            }
        }
        begin = end;
        j += 1;
    }
    true
}

pub fn curve_fault(da: Curve, rt: Curve) -> Result<(), Check>
    requires { (da.n ≤ 12) × (rt.n ≤ 12) }
    ensures { shown result ≡ curves_in da rt }
{
    if !curve_keeps(da) {
        return Err(Check::Curve(2));
    }
    if !curve_keeps(rt) {
        return Err(Check::Curve(3));
    }
    Ok(())
}

// Checks 3 and 4, which follow check 2 and read no interval.
pub fn order_or_curve_fault(
    said: i64,
    da: Curve,
    rt: Curve,
    expected: Expected,
) -> Result<(), Check>
    requires { (da.n ≤ 12) × (rt.n ≤ 12) }
    ensures { shown result ≡ (order_in said expected then curves_in da rt) }
{
    order_fault(said, expected)?;
    curve_fault(da, rt)
}

// At most 30 intervals of at most 900 seconds.
pub fn seconds_plus(a: Seconds, b: Seconds) -> Seconds
    requires { Within 27000 a.0 × Within 900 b.0 }
    ensures { result.0 ≡ a.0 +ℤ b.0 }
{
    Seconds(a.0 + b.0)
}

pub fn is_an_hour(s: Seconds) -> bool
    ensures { result ≡ eq_z s.0 (pos 3600) }
{
    s.0 == 3600
}

// Check 5, of an hour's or an import's seconds.
pub fn sum_fault(s: Seconds) -> Result<(), Check>
    ensures { shown result ≡ unless (eq_z s.0 (pos 3600)) 5 0 }
{
    if is_an_hour(s) {
        Ok(())
    } else {
        Err(Check::Seconds)
    }
}

pub fn seconds_fault(h: Hour) -> Result<(), Check>
    requires { (form h ≡ clear) × ((i : ℕ) → i < h.n → Within 900 (interval h i).s.0) }
    ensures { shown result ≡ seconds_sum h }
{
    let n = h.n;
    let iv = h.iv;
    let mut sum = Seconds(0);
    let mut i: usize = 0;
    while i < n {
        let v = iv[i];
        sum = seconds_plus(sum, v.s);
        i += 1;
    }
    sum_fault(sum)
}
