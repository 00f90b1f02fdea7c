// What the programs print: the text of each answer, byte by byte, into a page that the caller lends. A page that is too short gets the
// text's beginning. Each call replies how many bytes it wrote; that they lie within the page follows, and is said so that a caller
// can write them out as they stand. Nothing here writes to a file.
#![tactic(auto, using(page::proofs::Pages::lent, exact::proofs::Calls::handed))]

ghost use Rattle.std.specs.Prelude.{◌≡◌, min, length, take};
ghost use Rattle.io.specs.Counts.{IsPrefixLen};
ghost use Rattle.tariff.specs.Reply.{told};
ghost use Rattle.page.specs.Page.{written};
ghost use Rattle.answers.specs.Answers.{answer_text};
ghost use Rattle.printed.specs.Printed.{hour_text, day_text, line_text, import_text};

use page::Page;
use tariff::{Answer, Expected};

// No text is longer, as specs/Printed.antt has it.
pub const LONGEST: usize = 2048;

// The text of an hour's answer, of which the first n entries of `grains` are the contributions.
pub fn answer_text(hour: i64, grains: &[i64], n: usize, answer: Answer, page: &mut [u8]) -> usize
    ensures text { page.new ≡ written page.old 0 (answer_text hour (take n grains.now) (told answer)) }
    ensures count { result ≡ min (length (answer_text hour (take n grains.now) (told answer))) (length page.old) }
    ensures within { IsPrefixLen result page.new }
{
    let mut page = Page::new(page);
    answers::put_answer(&mut page, hour, grains, n, answer);
    page.at
}

// What `hour` prints of a block.
pub fn hour_text(block: &[u8], page: &mut [u8]) -> usize
    ensures text { page.new ≡ written page.old 0 (hour_text block.now) }
    ensures count { result ≡ min (length (hour_text block.now)) (length page.old) }
    ensures within { IsPrefixLen result page.new }
{
    let mut grains = [0i64; 30];
    let answer = sheet::settle_block(block, false, Expected::Any, &mut grains);
    let said = sheet::said_by(block);
    answer_text(said.hour, &grains, said.n, answer, page)
}

// What `day` prints of a sheet between its neighbours' headers.
#[tactic(auto, using(page::proofs::Pages::lent, crate::proofs::Texts::hours_held), unfolding(crate::specs::Printed::day_page))]
pub fn day_text(text: &[u8], page: &mut [u8]) -> usize
    ensures text { page.new ≡ written page.old 0 (day_text text.now) }
    ensures count { result ≡ min (length (day_text text.now)) (length page.old) }
    ensures within { IsPrefixLen result page.new }
{
    let day = ledger::settle_day(text);
    let mut page = Page::new(page);
    answers::put_day(
        &mut page,
        day.found,
        Some(day.header),
        &day.hours,
        day.count,
        day.total,
    );
    page.at
}

// What `line` prints of the day of an internal controllable line.
#[tactic(auto, using(page::proofs::Pages::lent, crate::proofs::Texts::hours_held), unfolding(crate::specs::Printed::day_page))]
pub fn line_text(text: &[u8], page: &mut [u8]) -> usize
    ensures text { page.new ≡ written page.old 0 (line_text text.now) }
    ensures count { result ≡ min (length (line_text text.now)) (length page.old) }
    ensures within { IsPrefixLen result page.new }
{
    let day = ledger::settle_icl_day(text);
    let mut page = Page::new(page);
    answers::put_day(&mut page, day.found, None, &day.hours, day.count, day.total);
    page.at
}

// What `import` prints of a text.
#[tactic(auto, using(page::proofs::Pages::lent), unfolding(crate::specs::Printed::import_text))]
pub fn import_text(text: &[u8], page: &mut [u8]) -> usize
    ensures text { page.new ≡ written page.old 0 (import_text text.now) }
    ensures count { result ≡ min (length (import_text text.now)) (length page.old) }
    ensures within { IsPrefixLen result page.new }
{
    let mut page = Page::new(page);
    answers::put_import(&mut page, imports::settle_import(text));
    page.at
}
