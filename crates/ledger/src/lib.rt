// The day call: the bytes of a day, with its neighbours' headers, in, the answer of each hour and the day's total out. So of an internal controllable line's day.
#![tactic(auto)]

ghost use Rattle.std.specs.Prelude.{◌≡◌, ◌≤◌, length};
ghost use Rattle.tariff.specs.Reply.{shown};
ghost use Rattle.tariff.specs.Sheet.{LONGEST_DAY};
ghost use Rattle.tariff.specs.Total.{told_total, told_all};
ghost use Rattle.ledger.specs.Day as spec;
ghost use Rattle.ledger.specs.Day.{front_of, day_total};
ghost use Rattle.ledger.specs.IclDay.{icl_front_of};
ghost use Rattle.ledger.specs.Walk.{answer_of, FrontRead, held_replies, refused_day, DayOf};

use crate::front::Front;
use crate::hours::Kind;
use tariff::{Answer, Cents, Check};

mod front;
mod heads;
mod hours;

// A settled day: a header's fault or none, which header that is, how many hours the day has, the answer of each, and the total. Behind the last hour
// stands the answer of an absent block, or the refusal of a refused header.
#[derive(Clone, Copy)]
pub struct Day {
    pub found: Result<(), Check>,
    pub header: usize,
    pub count: usize,
    pub hours: [Answer; tariff::LONGEST_DAY],
    pub total: Option<Cents>,
}

// A refused header refuses every hour.
fn refused_day(check: Check, header: usize, count: usize) -> Day
    ensures { result ≡ refused_day check header count }
{
    Day {
        found: Err(check),
        header,
        count,
        hours: [Answer::Refused(check); tariff::LONGEST_DAY],
        total: None,
    }
}

// What a front that was read and the blocks behind it come to: a refused front refuses every hour.
fn settle_behind(text: &[u8], front: Front, kind: Kind) -> Day
    requires { (front.next ≤ length text.now) × (front.hours ≤ LONGEST_DAY) }
    ensures { (f : spec.Front) → f.answer ≡ answer_of kind → FrontRead text.now f front → DayOf f result }
{
    let found = front.found;
    let header = front.header;
    let count = front.hours;
    if let Err(check) = found {
        return refused_day(check, header, count);
    }
    let settled = hours::settle_hours(text, front.next, kind, front.excluded, count);
    let hours = settled.hours;
    let total = settled.total;
    Day {
        found,
        header,
        count,
        hours,
        total,
    }
}

// Settles a day: its sheet's header stands between those of its neighbours, and its blocks behind them. Any bytes are judged.
pub fn settle_day(text: &[u8]) -> Day
    ensures found { shown result.found ≡ (front_of text.now).fault }
    ensures header { result.header ≡ (front_of text.now).header }
    ensures count { result.count ≡ (front_of text.now).hours }
    ensures hours { told_all result.hours ≡ held_replies (front_of text.now) }
    ensures total { told_total result.total ≡ day_total (front_of text.now) }
{
    settle_behind(text, front::read_front(text), Kind::Generator)
}

// Settles the day of an internal controllable line in the same way.
pub fn settle_icl_day(text: &[u8]) -> Day
    ensures found { shown result.found ≡ (icl_front_of text.now).fault }
    ensures header { result.header ≡ (icl_front_of text.now).header }
    ensures count { result.count ≡ (icl_front_of text.now).hours }
    ensures hours { told_all result.hours ≡ held_replies (icl_front_of text.now) }
    ensures total { told_total result.total ≡ day_total (icl_front_of text.now) }
{
    settle_behind(text, front::read_icl_front(text), Kind::Icl)
}
