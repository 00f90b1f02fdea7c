// Which hours of a day are excluded, as a word with a bit for each hour, hour 0 the lowest.
#![tactic(auto)]

ghost use Rattle.std.specs.Prelude.{◌≡◌};
ghost use Rattle.tariff.specs.Eligible.{marked, excluded, no_marks};
ghost use Rattle.marks.specs.Word.{word};
ghost use Rattle.marks.specs.Days.{within};

use crate::words::Day;
use tariff::{MarkedDay, Marks};

mod words;

// The marks of a day of which none is known: no hour has a category, and none an exception. Written out, since a derived default is no plainer:
// it promises zero after zero, and not this value.
pub fn no_marks() -> Marks
    ensures { result ≡ no_marks }
{
    Marks {
        rtc: false,
        cat: [0u8; tariff::LONGEST_DAY],
        x1: 0,
        x2: 0,
        x3: 0,
        x4: 0,
        x5: 0,
        x6: 0,
    }
}

// The hours of a day that are excluded, between the day before it and the day after: bit h is document 01's sentence about hour h, in
// which the two hours before and after pass midnight, as request 5 asks. No day has more hours than the longest, so a greater count is
// taken as that.
pub fn excluded_hours(before: MarkedDay, own: MarkedDay, after: MarkedDay) -> u32
    ensures { result ≡ word (within own).hours (excluded (within before) (within own) (within after)) }
{
    words::excluded_in(Day::within(before), Day::within(own), Day::within(after))
}

// Whether a word marks an hour; no hour past the word is marked.
pub fn is_marked(word: u32, hour: u32) -> bool
    ensures { result ≡ marked word hour }
{
    hour < u32::BITS && (word >> hour) & 1 == 1
}
