// The lines of each kind of answer, onto a lent page. A key is a fixed byte string, as document 01 prints it.
#![tactic(auto, using(page::proofs::Pages::pages, exact::proofs::Calls::handed, crate::proofs::Numbered::numbers))]

ghost use Rattle.std.specs.Prelude.{◌≡◌, ◌++◌, take};
ghost use Rattle.tariff.specs.Reply.{told, shown, number_of, place_of};
ghost use Rattle.tariff.specs.Import.{import_fault_told, import_told};
ghost use Rattle.tariff.specs.Total.{told_total, told_all};
ghost use Rattle.page.specs.Page.{wrote};
ghost use Rattle.answers.specs.Answers.{refused_line, refusal_text, pay_line, interval_line, numbered, answer_text, hour_line, total_line, ending_of, refused_ending, day_lines, import_line};

use page::Page;
use tariff::{Answer, Cents, Check, ImportAnswer, ImportFault};

// The place of a refusal is followed by which of several headers it is of, where that is asked for.
fn put_ending(page: &mut Page, check: Check, ending: Option<usize>)
    ensures { page.new ≡ wrote page.old (refused_ending (ending_of ending) (number_of check) (place_of check)) }
{
    page.put_count(b"refused=", tariff::number_of(check));
    page.put_count(b" at=", tariff::place_of(check) as u64);
    if let Some(header) = ending {
        page.put_count(b" header=", header as u64);
    }
    page.put(b"\n");
}

fn put_refusal(page: &mut Page, check: Check)
    ensures { page.new ≡ wrote page.old (refused_line (number_of check) (place_of check)) }
{
    put_ending(page, check, None);
}

// The refusal of a sheet that is only judged, or nothing.
pub fn put_found(page: &mut Page, found: Result<(), Check>)
    ensures { page.new ≡ wrote page.old (refusal_text (shown found)) }
{
    if let Err(check) = found {
        put_refusal(page, check);
    }
}

fn put_pay(page: &mut Page, key: &[u8], name: i64, cents: Cents)
    ensures { page.new ≡ wrote page.old (pay_line key.now name cents.0) }
{
    page.put_signed(key, name);
    page.put_signed(b" pay=", cents.0);
    page.put(b"\n");
}

fn put_interval(page: &mut Page, i: usize, grains: i64)
    ensures { page.new ≡ wrote page.old (interval_line i grains) }
{
    page.put_count(b"i=", i as u64);
    page.put_signed(b" grains=", grains);
    page.put(b"\n");
}

// A line for each of the first n contributions, or for all if there are fewer.
fn put_intervals(page: &mut Page, grains: &[i64], n: usize)
    ensures { page.new ≡ wrote page.old (numbered interval_line 1 (take n grains.now)) }
{
    let n = n.min(grains.len());
    for (i, g) in grains[..n].iter().enumerate() {
        put_interval(page, i + 1, *g);
    }
}

// What `hour` prints of an answer.
pub fn put_answer(page: &mut Page, hour: i64, grains: &[i64], n: usize, answer: Answer)
    ensures { page.new ≡ wrote page.old (answer_text hour (take n grains.now) (told answer)) }
{
    match answer {
        Answer::Refused(check) => put_refusal(page, check),
        Answer::Paid(_, cents) => {
            put_intervals(page, grains, n);
            put_pay(page, b"hour=", hour, cents);
        }
    }
}

fn put_hour(page: &mut Page, k: usize, answer: Answer)
    ensures { page.new ≡ wrote page.old (hour_line k (told answer)) }
{
    page.put_count(b"hour=", k as u64);
    match answer {
        Answer::Paid(_, cents) => {
            page.put_signed(b" pay=", cents.0);
            page.put(b"\n");
        }
        Answer::Refused(check) => {
            page.put(b" ");
            put_refusal(page, check);
        }
    }
}

// A line for each of the first `count` hours, or for all that there are if there are fewer.
fn put_hours(page: &mut Page, hours: &[Answer], count: usize)
    ensures { page.new ≡ wrote page.old (numbered hour_line 0 (take count (told_all hours.now))) }
{
    let count = count.min(hours.len());
    for (k, answer) in hours[..count].iter().enumerate() {
        put_hour(page, k, *answer);
    }
}

fn put_total(page: &mut Page, total: Option<Cents>)
    ensures { page.new ≡ wrote page.old (total_line (told_total total)) }
{
    match total {
        Some(cents) => page.put_signed(b"total=", cents.0),
        None => page.put(b"total=-"),
    }
    page.put(b"\n");
}

// What `day` prints: a line for each of the day's block places and then the total, or a refused header's refusal alone.
pub fn put_day(
    page: &mut Page,
    found: Result<(), Check>,
    ending: Option<usize>,
    hours: &[Answer],
    count: usize,
    total: Option<Cents>,
)
    ensures { page.new ≡ wrote page.old (day_lines (ending_of ending) (shown found) (take count (told_all hours.now)) (told_total total)) }
{
    match found {
        Err(check) => put_ending(page, check, ending),
        Ok(()) => {
            put_hours(page, hours, count);
            put_total(page, total);
        }
    }
}

// A refusal in no hour is one of the first two lines, or for bytes behind the last block.
fn put_fault(page: &mut Page, fault: ImportFault)
    ensures { page.new ≡ wrote page.old (import_line (import_fault_told fault)) }
{
    let (number, hour, place) = match fault {
        ImportFault::Head(check) => (tariff::number_of(check), None, tariff::place_of(check)),
        ImportFault::Block(hour, check) => (
            tariff::number_of(check),
            Some(hour),
            tariff::place_of(check),
        ),
        ImportFault::Surplus => (tariff::number_of(Check::Order), None, 0),
    };
    page.put_count(b"refused=", number);
    match hour {
        Some(hour) => page.put_count(b" hour=", hour as u64),
        None => page.put(b" hour=-"),
    }
    page.put_count(b" at=", place as u64);
    page.put(b"\n");
}

// What `import` prints: the payment, or the refusal with its hour.
pub fn put_import(page: &mut Page, answer: ImportAnswer)
    ensures { page.new ≡ wrote page.old (import_line (import_told answer)) }
{
    match answer {
        ImportAnswer::Refused(fault) => put_fault(page, fault),
        ImportAnswer::Paid(name, _, cents) => put_pay(page, b"import=", name, cents),
    }
}
