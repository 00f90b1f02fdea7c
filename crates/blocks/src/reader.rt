// The reader: a block that is lent, and a place in it. It goes over the lent block without a copy of it. What holds a reference is
// thin and few: it takes the reader apart and calls a covered function on the slice and the place.
ghost use Rattle.std.specs.Prelude.{◌≡◌};
ghost use Rattle.blocks.specs.Block.{block_at, hour_read_of};

use crate::Generator;
use tariff::Hour;

#[derive(Clone, Copy)]
pub struct Reader<'a> {
    pub block: &'a [u8],
    pub place: usize,
}

// A reader at a place of a block.
pub fn open<'a>(block: &'a [u8], place: usize) -> Reader<'a>
    ensures { (result.block ≡ block.entry) × (result.place ≡ place) }
{
    Reader { block, place }
}

// The hour block that begins at the reader's place.
pub fn hour<'a>(r: Reader<'a>) -> Result<Hour, usize>
    ensures { result ≡ hour_read_of (block_at r.entry.block.now r.entry.place) }
{
    curves::block_at::<Generator>(r.block, r.place)
}

// The same for a caller that has a slice and a place, and holds no reader.
pub fn hour_at(block: &[u8], place: usize) -> Result<Hour, usize>
    ensures { result ≡ hour_read_of (block_at block.now place) }
{
    hour(open(block, place))
}
