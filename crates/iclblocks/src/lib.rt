// The bytes of an internal controllable line's hour block into its record, line by line. Its curve lines are a generator's.
#![tactic(auto)]

ghost use Rattle.std.specs.Prelude.{◌≡◌, pos, get_or};
ghost use Rattle.keys.specs.Keys.{ICL_HOUR};
ghost use Rattle.iclblocks.specs.IclBlock.{controllable_line, icl_block_of, icl_read_of};
ghost use Rattle.iclblocks.specs.Laws.{icl_hour_laws};

use curves::BlockKind;
use records::Series;
use tariff::{Curve, IclHour, IclInterval, Kw};

// An internal controllable line's hour block: three fields in line 1, and six in an interval line.
pub struct ControllableLine;

impl BlockKind for ControllableLine {
    type Interval = IclInterval;

    type Hour = IclHour;

    const FIRST: usize = keys::ICL_HOUR;

    const FIELDS: usize = 3;

    ghost FIRST = { ICL_HOUR };

    ghost FIELDS = { 3 };

    ghost hour_of = { controllable_line.hour_of };

    ghost laws = { icl_hour_laws };

    fn hour_of(values: [i64; 20], da: Curve, rt: Curve, series: Series<IclInterval>) -> IclHour
        ensures { result ≡ controllable_line.hour_of (λ n. get_or values n (pos 0)) da rt series.n series.iv }
    {
        let Series { n, iv } = series;
        IclHour {
            hour: values[0],
            dasi: Kw(values[1]),
            dasw: Kw(values[2]),
            da,
            rt,
            n,
            iv,
        }
    }
}

// The block that begins at the first byte, read up to its first empty line or the text's end; or its first line that is not as printed.
// Any bytes are read.
pub fn read_icl(block: &[u8]) -> Result<IclHour, usize>
    ensures { result ≡ icl_read_of (icl_block_of block.now) }
{
    curves::block_at::<ControllableLine>(block, 0)
}
