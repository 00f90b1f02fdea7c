// The import call: the bytes of a curtailed import's day in, its payment or its refusal out.
#![tactic(auto)]

ghost use Rattle.std.specs.Prelude.{◌≡◌};
ghost use Rattle.tariff.specs.Import.{import_told};
ghost use Rattle.imports.specs.Import.{hours_in, import_reply};

use tariff::{ImportAnswer, ImportFault, USUAL_COUNT};

mod block;
mod days;
mod head;

// How many hours the day of a text has.
pub fn hours_of(s: &[u8]) -> usize
    ensures { result ≡ hours_in s.now }
{
    let count = match head::read_line(s) {
        Some(line) => line.count,
        None => USUAL_COUNT,
    };
    ranges::hours_by(count)
}

// Settles a curtailed import's day. Any bytes are judged.
pub fn settle_import(s: &[u8]) -> ImportAnswer
    ensures { import_told result ≡ import_reply s.now }
{
    match head::read_head(s) {
        Ok(head) => days::settle_blocks(s, head),
        Err(check) => ImportAnswer::Refused(ImportFault::Head(check)),
    }
}
