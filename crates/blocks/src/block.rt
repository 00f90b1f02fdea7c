// A generator's hour block: ten fields in line 1, and twenty in an interval line.
ghost use Rattle.std.specs.Prelude.{◌≡◌, pos, get_or};
ghost use Rattle.keys.specs.Keys.{AHEAD};
ghost use Rattle.blocks.specs.Block.{generator};
ghost use Rattle.blocks.specs.Laws.{hour_laws};

use curves::BlockKind;
use records::Series;
use tariff::{Curve, Hour, Interval};

pub struct Generator;

impl BlockKind for Generator {
    type Interval = Interval;

    type Hour = Hour;

    const FIRST: usize = keys::AHEAD;

    const FIELDS: usize = 10;

    ghost FIRST = { AHEAD };

    ghost FIELDS = { 10 };

    ghost hour_of = { generator.hour_of };

    ghost laws = { hour_laws };

    fn hour_of(values: [i64; 20], da: Curve, rt: Curve, series: Series<Interval>) -> Hour
        ensures { result ≡ generator.hour_of (λ n. get_or values n (pos 0)) da rt series.n series.iv }
    {
        let Series { n, iv } = series;
        Hour {
            hour: values[0],
            ahead: records::ahead_of(values),
            da,
            rt,
            n,
            iv,
        }
    }
}
