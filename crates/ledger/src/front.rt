// What stands in front of a day's blocks.
ghost use Rattle.ledger.specs.Day.{front_of};
ghost use Rattle.ledger.specs.IclDay.{icl_front_of};
ghost use Rattle.ledger.specs.Walk.{FrontRead};

use crate::heads;
use tariff::Check;

// A fault or none, which header has it, how many hours the day has, a bit for each that is excluded, and the place of the first block.
#[derive(Clone, Copy)]
pub struct Front {
    pub found: Result<(), Check>,
    pub header: usize,
    pub hours: usize,
    pub excluded: u32,
    pub next: usize,
}

// Reads the front of what `day` is given: the headers of the day before, its own and of the day after.
pub fn read_front(text: &[u8]) -> Front
    ensures { FrontRead text.now (front_of text.now) result }
{
    let second = lines::piece_after(text, 0);
    let third = lines::piece_after(text, second);
    let before = heads::read_neighbour(text, 0);
    let own = heads::read_head(text, second);
    let after = heads::read_neighbour(text, third);
    let judged = heads::judge(before, own, after);
    let found = judged.found;
    Front {
        found,
        header: judged.header,
        hours: own.day.hours,
        excluded: marks::excluded_hours(before.day, own.day, after.day),
        next: lines::piece_after(text, third),
    }
}

// The same of an internal controllable line's day: an hour that is not marked is excluded.
pub fn read_icl_front(text: &[u8]) -> Front
    ensures { FrontRead text.now (icl_front_of text.now) result }
{
    let header = header::read_icl_header(text);
    let found = header.found;
    Front {
        found,
        header: 0,
        hours: header.hours,
        excluded: header.unmarked,
        next: header.next,
    }
}
