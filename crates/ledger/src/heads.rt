// The three headers in front of a day's blocks, each as it is read, and which of them refuses the day.
ghost use Rattle.std.specs.Prelude.{◌≡◌, not, ◌&&◌, List, ℕ, ◌≤◌, length, drop};
ghost use Rattle.exact.specs.Whole.{eq_z};
ghost use Rattle.tariff.specs.Eligible.{no_day};
ghost use Rattle.ledger.specs.Headers.{headers_fault};
ghost use Rattle.ledger.specs.Walk.{OwnRead, NeighbourRead, JudgedAs};

use tariff::{Check, MarkedDay};

// One of the headers: whether it is lacking, its fault or none, its unit, the line of that, and what it says of its day.
#[derive(Clone, Copy)]
pub struct Head {
    pub lacking: bool,
    pub found: Result<(), Check>,
    pub unit: i64,
    pub line: usize,
    pub day: MarkedDay,
}

// A fault or none, and the number of the header that has it.
#[derive(Clone, Copy)]
pub struct Judged {
    pub found: Result<(), Check>,
    pub header: usize,
}

// The header that begins at a place.
pub fn read_head(text: &[u8], at: usize) -> Head
    requires { at ≤ length text.now }
    ensures { OwnRead (drop at text.now) result }
{
    let header = header::read_header(&text[at..]);
    let found = header.found;
    let marks = header.marks;
    let day = MarkedDay {
        hours: header.hours,
        marks,
    };
    Head {
        lacking: false,
        found,
        unit: header.unit,
        line: header.line,
        day,
    }
}

// A neighbour that is lacking has no hours, and so no marks.
fn no_day() -> MarkedDay
    ensures { result ≡ no_day }
{
    MarkedDay {
        hours: 0,
        marks: marks::no_marks(),
    }
}

// A neighbour's header that begins at a place, or the empty line that stands for it.
pub fn read_neighbour(text: &[u8], at: usize) -> Head
    requires { at ≤ length text.now }
    ensures { NeighbourRead (drop at text.now) result }
{
    if text::byte_at(text, at) == Some(b'\n') {
        return Head {
            lacking: true,
            found: Ok(()),
            unit: 0,
            line: 0,
            day: no_day(),
        };
    }
    read_head(text, at)
}

// Whether a neighbour is of another unit than the day.
fn is_other(neighbour: Head, own: Head) -> bool
    ensures { result ≡ (not neighbour.lacking && not (eq_z neighbour.unit own.unit)) }
{
    !neighbour.lacking & (neighbour.unit != own.unit)
}

// The first header that refuses, in the order read; then a neighbour of another unit, the day before first.
pub fn judge(before: Head, own: Head, after: Head) -> Judged
    ensures { (b o a : List ℕ) → NeighbourRead b before → OwnRead o own → NeighbourRead a after → JudgedAs (headers_fault b o a) result }
{
    let found = before.found;
    if let Err(_) = found {
        return Judged { found, header: 0 };
    }
    let found = own.found;
    if let Err(_) = found {
        return Judged { found, header: 1 };
    }
    let found = after.found;
    if let Err(_) = found {
        return Judged { found, header: 2 };
    }
    if is_other(before, own) {
        return Judged {
            found: Err(Check::Range(before.line)),
            header: 0,
        };
    }
    if is_other(after, own) {
        return Judged {
            found: Err(Check::Range(after.line)),
            header: 2,
        };
    }
    Judged {
        found: Ok(()),
        header: 0,
    }
}
