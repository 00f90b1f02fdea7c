// The symbols of libculvertjig.a: each export is the library's call of that name, and promises what that promises.
#![tactic(auto)]

ghost use Rattle.std.specs.Prelude.{◌≡◌};
ghost use Rattle.blocks.specs.Block.{block_of};
ghost use Rattle.sheet.specs.Settle.{row_to};
ghost use Rattle.iclblocks.specs.IclBlock.{icl_block_of};
ghost use Rattle.iclsheet.specs.IclSettle.{icl_row_to};
ghost use Rattle.culvertjig.specs.Numbers.{expected_of, reply_of, line_reply_of, number_held, place_held, grains_held, cents_held};

// Settles the hour block that begins at the first byte, in a day of so many hours where an hour is expected: 0 where it is paid, with `grains`, `cents` and the front of `row` written,
// else the number of the check that refuses, with `place` written. What is not written is as it was.
#[unsafe(no_mangle)]
pub extern "C" fn culvertjig_block(
    block: &[u8],
    excluded: bool,
    expected: i64,
    hours: u64,
    row: &mut [i64],
    place: &mut u64,
    grains: &mut i64,
    cents: &mut i64,
) -> u64
    ensures number { result ≡ number_held (reply_of block.now excluded expected hours row.old) }
    ensures place { place.new ≡ place_held (reply_of block.now excluded expected hours row.old) place.old }
    ensures grains { grains.new ≡ grains_held (reply_of block.now excluded expected hours row.old) grains.old }
    ensures cents { cents.new ≡ cents_held (reply_of block.now excluded expected hours row.old) cents.old }
    ensures row { row.new ≡ row_to (block_of block.now) excluded (expected_of expected hours) row.old }
{
    culvertjig::culvertjig_block(block, excluded, expected, hours, row, place, grains, cents)
}

// Settles an hour block of an internal controllable line in the same way.
#[unsafe(no_mangle)]
pub extern "C" fn culvertjig_line_block(
    block: &[u8],
    excluded: bool,
    expected: i64,
    hours: u64,
    row: &mut [i64],
    place: &mut u64,
    grains: &mut i64,
    cents: &mut i64,
) -> u64
    ensures number { result ≡ number_held (line_reply_of block.now excluded expected hours row.old) }
    ensures place { place.new ≡ place_held (line_reply_of block.now excluded expected hours row.old) place.old }
    ensures grains { grains.new ≡ grains_held (line_reply_of block.now excluded expected hours row.old) grains.old }
    ensures cents { cents.new ≡ cents_held (line_reply_of block.now excluded expected hours row.old) cents.old }
    ensures row { row.new ≡ icl_row_to (icl_block_of block.now) excluded (expected_of expected hours) row.old }
{
    culvertjig::culvertjig_line_block(block, excluded, expected, hours, row, place, grains, cents)
}
