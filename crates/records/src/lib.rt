// What the numbers of a line say, as the record of its kind of line. Any numbers are taken: their ranges are judged later.
#![tactic(auto)]

ghost use Rattle.std.specs.Prelude.{◌≡◌, pos, get_or};
ghost use Rattle.records.specs.Records.{maybe_of, ahead_of};

use tariff::{DayAhead, Kw, Price};

mod intervals;
mod series;

pub use series::{IntervalLine, Series, series_at};

// Line 1 of an hour block; its first number is the hour.
pub fn ahead_of(v: [i64; 20]) -> DayAhead
    ensures { result ≡ ahead_of (λ n. get_or v n (pos 0)) }
{
    DayAhead {
        en: Kw(v[1]),
        reg: Kw(v[2]),
        r1: Kw(v[3]),
        r2: Kw(v[4]),
        r3: Kw(v[5]),
        breg: Price(v[6]),
        b1: Price(v[7]),
        b2: Price(v[8]),
        b3: Price(v[9]),
    }
}

// 10,000,000, which seven digits cannot say, stands for `uol=-` and for `eop=-`.
fn maybe_of(v: i64) -> Option<Kw>
    ensures { result ≡ maybe_of v }
{
    if v == 10000000 { None } else { Some(Kw(v)) }
}
