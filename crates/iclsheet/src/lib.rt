// The block call of an internal controllable line: the bytes of its hour block in, an answer out, a lent row written or left alone.
#![tactic(auto)]

ghost use Rattle.std.specs.Prelude.{◌≡◌, length};
ghost use Rattle.tariff.specs.Reply.{told};
ghost use Rattle.iclblocks.specs.IclBlock.{icl_block_of};
ghost use Rattle.iclsheet.specs.IclSettle.{icl_reply_to, icl_row_to};

use tariff::{Answer, Check, Expected};

// Settles the hour block that begins at the first byte, read up to its first empty line or its end. Any bytes are judged.
pub fn settle_icl_block(block: &[u8], excluded: bool, expected: Expected, row: &mut [i64]) -> Answer
    ensures reply { told result ≡ icl_reply_to (icl_block_of block.now) excluded expected (length row.old) }
    ensures row { row.new ≡ icl_row_to (icl_block_of block.now) excluded expected row.old }
{
    match iclblocks::read_icl(block) {
        Ok(hour) => engine::settle_icl(hour, excluded, expected, row),
        Err(line) => Answer::Refused(Check::Form(line)),
    }
}
