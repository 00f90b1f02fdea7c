// The blocks of an import's day, one after the other, up to the first that is refused.
ghost use Rattle.std.specs.Prelude.{◌≡◌, ◌≤◌, length, drop};
ghost use Rattle.tariff.specs.Sheet.{LONGEST_DAY};
ghost use Rattle.tariff.specs.Reply.{clear};
ghost use Rattle.tariff.specs.Import.{worth_told, import_told};
ghost use Rattle.imports.specs.Import.{import_block_at, reply_under};
ghost use Rattle.imports.specs.Read.{block_worth, handed_on};

use crate::block;
use crate::head::Head;
use tariff::{Check, Grains, ImportAnswer, ImportFault};

// What the block that begins at a place is worth, as block k of a day of so many hours.
pub fn settle_block(s: &[u8], at: usize, cts: i64, k: usize, hours: usize) -> Result<Grains, Check>
    requires { at ≤ length s.now }
    ensures { worth_told result ≡ block_worth cts hours (import_block_at (drop at s.now) 0) k }
{
    match block::read_block(&s[at..], 0) {
        Err(line) => Err(Check::Form(line)),
        Ok(hour) => intervals::import_part(hour, cts, k, hours),
    }
}

// The refusal of block k, handed on with its hour. What is worth a part is never handed on, and no form of the language leaves that
// arm out: it refuses the day too, and names the hour, so that no block could go missing from a payment.
pub fn handed_on(answer: Result<Grains, Check>, k: usize) -> ImportAnswer
    ensures { import_told result ≡ handed_on (worth_told answer).0 k }
{
    match answer {
        Err(check) => ImportAnswer::Refused(ImportFault::Block(k, check)),
        Ok(_) => ImportAnswer::Refused(ImportFault::Block(k, Check::Form(0))),
    }
}

// The blocks of a day whose first two lines are read.
pub fn settle_blocks(s: &[u8], head: Head) -> ImportAnswer
    requires { (head.next ≤ length s.now) × (head.hours ≤ LONGEST_DAY) }
    ensures { import_told result ≡ reply_under clear head.name head.cts head.hours (drop head.next s.now) }
{
    let mut sum = Grains(0);
    let mut i = head.next;
    for k in 0..head.hours {
        let answer = settle_block(s, i, head.cts, k, head.hours);
        let Ok(grains) = answer else {
            return handed_on(answer, k);
        };
        sum = sum + grains;
        i = lines::piece_after(s, i);
    }
    if i < s.len() {
        return ImportAnswer::Refused(ImportFault::Surplus);
    }
    ImportAnswer::Paid(head.name, sum, units::cents_of(sum))
}
