// The bytes of an hour block into its record, line by line as document 01 prints them.
#![tactic(auto)]

ghost use Rattle.std.specs.Prelude.{◌≡◌};
ghost use Rattle.blocks.specs.Block.{block_of, hour_read_of};

use tariff::Hour;

mod block;
mod reader;

pub use block::Generator;

// The hour block that begins at the first byte, read up to its first empty line or the text's end; or its first line that is not as printed.
// Any bytes are read.
pub fn read_hour(block: &[u8]) -> Result<Hour, usize>
    ensures { result ≡ hour_read_of (block_of block.now) }
{
    reader::hour_at(block, 0)
}
