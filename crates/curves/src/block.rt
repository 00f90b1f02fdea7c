// An hour block of any kind, read into its record: line 1, the two curve lines, and the interval lines.
ghost use Rattle.std.specs.Prelude.{◌≡◌, ℕ, ℤ, pos, List, get_or};
ghost use Rattle.tariff.specs.declared.Curve.{Curve};
ghost use Rattle.records.specs.Laws.{LineLaws};
ghost use Rattle.curves.specs.Frame.{kind_of, framed_at, framed_read};

use crate::curve_at;
use records::{IntervalLine, Series};
use tariff::Curve;

// A kind of hour block: what its line 1 and its interval lines say, and the record that they make.
pub trait BlockKind {
    type Interval: IntervalLine;

    type Hour;

    // The number of line 1's first key, and how many fields it has.
    const FIRST: usize;

    const FIELDS: usize;

    ghost FIRST: { ℕ };

    ghost FIELDS: { ℕ };

    ghost hour_of: { (ℕ → ℤ) → Curve → Curve → ℕ → List Self.Interval → Self.Hour };

    // The record of line 1's values, the day-ahead and the real-time curve, and the intervals.
    fn hour_of(
        values: [i64; 20],
        da: Curve,
        rt: Curve,
        series: Series<Self::Interval>,
    ) -> Self::Hour
        ensures { result ≡ hour_of (λ n. get_or values n (pos 0)) da rt series.n series.iv };

    ghost laws: { LineLaws FIRST FIELDS hour_of };
}

// The block that begins at a place, read up to its first empty line or the text's end; or its first line that is not as printed.
pub fn block_at<K: BlockKind>(s: &[u8], at: usize) -> Result<K::Hour, usize>
    ensures { result ≡ framed_read (framed_at (kind_of K.FIRST K.FIELDS K.Interval.FIRST K.Interval.FIELDS K.Interval.of K.Interval.blank K.hour_of) s.now at) }
{
    let first = lines::fields_at(s, at, K::FIRST, K::FIELDS);
    let line2 = lines::line_end(s, first.next).ok_or(1usize)?;
    let (da, line3) = curve_at(s, line2, false).ok_or(2usize)?;
    let (rt, line4) = curve_at(s, line3, true).ok_or(3usize)?;
    let series = records::series_at::<K::Interval>(s, line4, 4)?;
    Ok(K::hour_of(first.values, da, rt, series))
}
