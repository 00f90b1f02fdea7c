// The block call: the bytes of an hour block in, an answer out, a lent row written or left alone.
#![tactic(auto)]

ghost use Rattle.std.specs.Prelude.{◌≡◌, length};
ghost use Rattle.tariff.specs.Reply.{told};
ghost use Rattle.blocks.specs.Block.{block_of};
ghost use Rattle.sheet.specs.Settle.{reply_to, row_to, hour_said, count_said};

use tariff::{Answer, Check, Expected};

// Settles the hour block that begins at the first byte, read up to its first empty line or its end. Any bytes are judged.
pub fn settle_block(block: &[u8], excluded: bool, expected: Expected, row: &mut [i64]) -> Answer
    ensures reply { told result ≡ reply_to (block_of block.now) excluded expected (length row.old) }
    ensures row { row.new ≡ row_to (block_of block.now) excluded expected row.old }
{
    match blocks::read_hour(block) {
        Ok(hour) => engine::settle(hour, excluded, expected, row),
        Err(line) => Answer::Refused(Check::Form(line)),
    }
}

// What a block says of itself, as a program prints it: its hour and how many intervals it has, or zeros where it cannot be read.
#[derive(Clone, Copy)]
pub struct Said {
    pub hour: i64,
    pub n: usize,
}

pub fn said_by(block: &[u8]) -> Said
    ensures { (result.hour ≡ hour_said (block_of block.now)) × (result.n ≡ count_said (block_of block.now)) }
{
    match blocks::read_hour(block) {
        Ok(hour) => Said {
            hour: hour.hour,
            n: hour.n,
        },
        Err(_) => Said { hour: 0, n: 0 },
    }
}
