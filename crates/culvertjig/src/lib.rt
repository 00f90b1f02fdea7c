// The block call for callers in C or Rust, where a slice passes as a pointer and a length: of a generator's block, and of an internal
// controllable line's.
#![tactic(auto)]

ghost use Rattle.std.specs.Prelude.{◌≡◌};
ghost use Rattle.tariff.specs.Reply.{told};
ghost use Rattle.blocks.specs.Block.{block_of};
ghost use Rattle.sheet.specs.Settle.{row_to};
ghost use Rattle.iclblocks.specs.IclBlock.{icl_block_of};
ghost use Rattle.iclsheet.specs.IclSettle.{icl_row_to};
ghost use Rattle.culvertjig.specs.Numbers.{expected_of, reply_of, line_reply_of, number_held, place_held, grains_held, cents_held};

use tariff::{Answer, Expected};

// Below 0 stands for any hour; then the count of the day's hours is not read.
fn hour_expected(expected: i64, hours: u64) -> Expected
    ensures { result ≡ expected_of expected hours }
{
    if expected < 0 {
        Expected::Any
    } else {
        Expected::Says(expected, hours as usize)
    }
}

// An answer as numbers: 0 where it is paid, with `grains` and `cents` written, else the number of the check that refuses, with `place`
// written. What is not written is as it was.
fn held(answer: Answer, place: &mut u64, grains: &mut i64, cents: &mut i64) -> u64
    ensures number { result ≡ number_held (told answer) }
    ensures place { place.new ≡ place_held (told answer) place.old }
    ensures grains { grains.new ≡ grains_held (told answer) grains.old }
    ensures cents { cents.new ≡ cents_held (told answer) cents.old }
{
    match answer {
        Answer::Paid(sum, paid) => {
            let whole = sum.0;
            let rounded = paid.0;
            *grains = whole;
            *cents = rounded;
            0
        }
        Answer::Refused(check) => {
            *place = tariff::place_of(check) as u64;
            tariff::number_of(check)
        }
    }
}

// Settles the hour block that begins at the first byte, in a day of so many hours where an hour is expected: 0 where it is paid, with `grains`, `cents` and the front of `row` written,
// else the number of the check that refuses, with `place` written. What is not written is as it was.
pub fn culvertjig_block(
    block: &[u8],
    excluded: bool,
    expected: i64,
    hours: u64,
    row: &mut [i64],
    place: &mut u64,
    grains: &mut i64,
    cents: &mut i64,
) -> u64
    ensures number { result ≡ number_held (reply_of block.now excluded expected hours row.old) }
    ensures place { place.new ≡ place_held (reply_of block.now excluded expected hours row.old) place.old }
    ensures grains { grains.new ≡ grains_held (reply_of block.now excluded expected hours row.old) grains.old }
    ensures cents { cents.new ≡ cents_held (reply_of block.now excluded expected hours row.old) cents.old }
    ensures row { row.new ≡ row_to (block_of block.now) excluded (expected_of expected hours) row.old }
{
    let answer = sheet::settle_block(block, excluded, hour_expected(expected, hours), row);
    held(answer, place, grains, cents)
}

// Settles an hour block of an internal controllable line in the same way.
pub fn culvertjig_line_block(
    block: &[u8],
    excluded: bool,
    expected: i64,
    hours: u64,
    row: &mut [i64],
    place: &mut u64,
    grains: &mut i64,
    cents: &mut i64,
) -> u64
    ensures number { result ≡ number_held (line_reply_of block.now excluded expected hours row.old) }
    ensures place { place.new ≡ place_held (line_reply_of block.now excluded expected hours row.old) place.old }
    ensures grains { grains.new ≡ grains_held (line_reply_of block.now excluded expected hours row.old) grains.old }
    ensures cents { cents.new ≡ cents_held (line_reply_of block.now excluded expected hours row.old) cents.old }
    ensures row { row.new ≡ icl_row_to (icl_block_of block.now) excluded (expected_of expected hours) row.old }
{
    let answer = iclsheet::settle_icl_block(block, excluded, hour_expected(expected, hours), row);
    held(answer, place, grains, cents)
}
