// The intervals of a curtailed import's block: which of them count, what each gives, and their sum.
ghost use Rattle.std.specs.Prelude.{◌≡◌, ℕ};
ghost use Rattle.exact.specs.Whole.{Within};
ghost use Rattle.tariff.specs.declared.ImportHour.{ImportHour};
ghost use Rattle.tariff.specs.Reply.{clear};
ghost use Rattle.tariff.specs.Import.{import_form, import_range, counts, import_grains, import_sum};

use crate::sums;
use tariff::{Curtailed, Grains, ImportHour, Kw, Price};

// Whether an interval counts in an hour with the day-ahead schedule `den`.
pub fn is_counted(den: Kw, v: Curtailed, cts: i64) -> bool
    ensures { (h : ImportHour) → h.den ≡ den → result ≡ counts cts h v }
{
    if cts != 0 {
        return false;
    }
    if v.cut != 1 {
        return false;
    }
    if units::below(v.prof, den) {
        return false;
    }
    units::price_at_most(v.bid, v.def)
}

// What an interval gives in an hour with the day-ahead schedule `den` and the decremental bid `dec`.
pub fn curtailed_part(den: Kw, dec: Price, v: Curtailed, cts: i64) -> Grains
    requires { Within 2000000 den.0 × Within 1000000 dec.0 × Within 2000000 v.rten.0 × Within 1000000 v.lbmp.0 × Within 900 v.s.0 }
    ensures { (h : ImportHour) → h.den ≡ den → h.dec ≡ dec → result.0 ≡ import_grains cts h v }
{
    if !is_counted(den, v, cts) {
        return Grains(0);
    }
    let gap = sums::kw_minus(den, v.rten);
    let gain = sums::price_minus(v.lbmp, units::price_or_zero(dec));
    sums::product(gap, gain, v.s)
}

// What the block's intervals give together, whatever its sign; its numbers are in range on some day.
pub fn curtailed_sum(h: ImportHour, cts: i64) -> Grains
    requires { (import_form h ≡ clear) × (hours : ℕ) × (import_range hours h ≡ clear) }
    ensures { result.0 ≡ import_sum cts h }
{
    let den = h.den;
    let dec = h.dec;
    let n = h.n;
    let iv = h.iv;
    let mut sum = Grains(0);
    let mut i: usize = 0;
    while i < n {
        let v = iv[i];
        let part = curtailed_part(den, dec, v, cts);
        sum = sums::grains_plus(sum, part);
        i += 1;
    }
    sum
}
