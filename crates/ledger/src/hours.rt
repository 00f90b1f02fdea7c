// The blocks of a day, one after the other.
ghost use Rattle.std.specs.Prelude.{◌≡◌, ◌<◌, ◌≤◌, pos, length, drop};
ghost use Rattle.tariff.specs.Reply.{told};
ghost use Rattle.tariff.specs.Sheet.{LONGEST_DAY};
ghost use Rattle.tariff.specs.declared.Expected.TheVariants.{Says};
ghost use Rattle.tariff.specs.Total.{told_total};
ghost use Rattle.ledger.specs.Walk.{answer_of, Rounded, UpToCents, Added, word_front, SettledTo};

use tariff::{Answer, Cents, Check, Expected};

// The answers of a day's blocks, and their total.
#[derive(Clone, Copy)]
pub struct Settled {
    pub hours: [Answer; tariff::LONGEST_DAY],
    pub total: Option<Cents>,
}

// Whose blocks they are: a generator's, or an internal controllable line's.
#[derive(Clone, Copy)]
pub enum Kind {
    Generator,
    Icl,
}

// The block that begins at a place and has to say hour k of a day of so many.
pub fn settle_hour(
    s: &[u8],
    at: usize,
    kind: Kind,
    excluded: bool,
    k: usize,
    hours: usize,
) -> Answer
    requires { (at ≤ length s.now) × (k < LONGEST_DAY) }
    ensures { told result ≡ answer_of kind (drop at s.now) excluded (Says (pos k) hours) }
{
    let mut row = [0i64; 30];
    let block = &s[at..];
    let hour = k as i64;
    let expected = Expected::Says(hour, hours);
    match kind {
        Kind::Generator => sheet::settle_block(block, excluded, expected, &mut row),
        Kind::Icl => iclsheet::settle_icl_block(block, excluded, expected, &mut row),
    }
}

// A total with one answer more: 25 hours of 2,600,000,000,000 cents and no more are summed.
pub fn add(total: Option<Cents>, answer: Answer) -> Option<Cents>
    requires { UpToCents 65000000000000 (told_total total) × Rounded (told answer) }
    ensures { Added (told_total total) (told answer) (told_total result) }
{
    let sum = total?;
    match answer {
        Answer::Paid(_, cents) => Some(sum + cents),
        Answer::Refused(_) => None,
    }
}

// The answers of the first `hours` blocks from a place on, and their total, withheld where bytes follow.
pub fn settle_hours(s: &[u8], at: usize, kind: Kind, excluded: u32, hours: usize) -> Settled
    requires { (at ≤ length s.now) × (hours ≤ LONGEST_DAY) }
    ensures { SettledTo (word_front (answer_of kind) excluded (drop at s.now) hours) result }
{
    let mut answers = [Answer::Refused(Check::Form(1)); tariff::LONGEST_DAY];
    let mut total = Some(Cents(0));
    let mut i = at;
    for k in 0..hours {
        let is_excluded = marks::is_marked(excluded, k as u32);
        let answer = settle_hour(s, i, kind, is_excluded, k, hours);
        answers[k] = answer;
        total = add(total, answer);
        i = lines::piece_after(s, i);
    }
    if i < s.len() {
        total = None;
    }
    Settled {
        hours: answers,
        total,
    }
}
