// Rows of marks as words, over the count of a day's hours: a day on which the clock changes has another count.
ghost use Rattle.std.specs.Prelude.{if◌then◌else◌, ◌≡◌, ◌-◌, ◌%◌, ◌^◌, ◌<◌, ◌≤◌, eqb, get_or};
ghost use Rattle.std.specs.Int.Bits.{bit_or};
ghost use Rattle.tariff.specs.Sheet.{LONGEST_DAY};
ghost use Rattle.tariff.specs.Eligible.{reached, excluded};
ghost use Rattle.marks.specs.Word.{word};
ghost use Rattle.marks.specs.Alone.{by_itself, marked_near};
ghost use Rattle.marks.specs.Days.{within};

use tariff::{LONGEST_DAY, MarkedDay};

// A row of marks: a word with a bit for each of its hours, hour 0 the lowest.
#[derive(Clone, Copy)]
struct Row {
    word: u32,
    hours: usize,
    ghost in_the_word: { hours < 32 },
}

// A day that is no longer than the longest.
#[derive(Clone, Copy)]
pub struct Day {
    pub of: MarkedDay,
    ghost no_longer: { of.hours ≤ LONGEST_DAY },
}

impl Row {
    // The mask of a row: each of its hours is marked.
    fn whole(self) -> u32
        ensures { result ≡ 2 ^ self.hours - 1 }
    {
        (1 << self.hours) - 1
    }

    // The marks of the row's own hours: a bit above the row is no hour of it.
    fn cut(self) -> u32
        ensures { result ≡ self.word % 2 ^ self.hours }
    {
        self.word & self.whole()
    }

    // The hours that are marked or have a marked one at most two before or after. The word is masked before it is shifted, so that a bit above
    // the row marks nothing in it, and after, so that no hour past the row is marked.
    fn spread(self) -> u32
        ensures { result ≡ word self.hours (marked_near self.hours self.word) }
    {
        let own = self.cut();
        (own | (own << 1) | (own << 2) | (own >> 1) | (own >> 2)) & self.whole()
    }
}

impl Day {
    // No day has more hours than the longest, so a greater count is taken as that.
    pub fn within(day: MarkedDay) -> Day
        ensures { result.of ≡ within day }
    {
        Day {
            of: MarkedDay {
                hours: day.hours.min(LONGEST_DAY),
                marks: day.marks,
            },
        }
    }

    // The hours without a category; `cat` has a digit for each hour of the longest day.
    #[tactic(auto, using(crate::proofs::Rows::word_none, crate::proofs::Rows::fill, crate::proofs::Rows::skip))]
    fn no_category(self) -> u32
        ensures { result ≡ word self.of.hours (λ h. eqb (get_or self.of.marks.cat h 0) 0) }
    {
        let mut row: u32 = 0;
        for h in 0..self.of.hours {
            if self.of.marks.cat[h] == 0 {
                row |= 1 << h;
            }
        }
        row
    }

    // The hours that their own category or their own x1, x2 or x3 excludes.
    fn by_itself(self) -> u32
        ensures { result ≡ word self.of.hours (by_itself self.of.marks) }
    {
        let m = self.of.marks;
        let row = Row {
            word: self.no_category() | m.x1 | m.x2 | m.x3,
            hours: self.of.hours,
        };
        row.cut()
    }

    // The hours whose marks reach the two before and after: x4, and with the day's own `rtc` x5 and x6.
    fn reaching(self) -> Row
        ensures word { result.word ≡ bit_or self.of.marks.x4 (if self.of.marks.rtc then bit_or self.of.marks.x5 self.of.marks.x6 else 0) }
        ensures hours { result.hours ≡ self.of.hours }
    {
        let m = self.of.marks;
        Row {
            word: m.x4 | if m.rtc { m.x5 | m.x6 } else { 0 },
            hours: self.of.hours,
        }
    }
}

// The spread over three joined days at the hours of the middle one. Each word is masked to its day. Then the last two hours of the day before stand
// at bits 0 and 1, also where it has one hour or none, the day's own behind them, and the hours of the day after behind those: of these the first
// two are needed, and later ones may pass the word's top.
fn spread_days(before: Day, own: Day, after: Day) -> u32
    ensures { result ≡ word own.of.hours (reached before.of own.of after.of) }
{
    let early = before.reaching().cut();
    let day = own.reaching();
    let late = after.reaching().cut();
    let window = Row {
        word: ((early << 2) >> before.of.hours) | (day.cut() << 2) | (late << (own.of.hours + 2)),
        hours: own.of.hours + 4,
    };
    (window.spread() >> 2) & day.whole()
}

// The excluded hours of a day between its neighbours, whose marks that reach count too. A day's `rtc` is asked for its own marks alone.
pub fn excluded_in(before: Day, own: Day, after: Day) -> u32
    ensures { result ≡ word own.of.hours (excluded before.of own.of after.of) }
{
    own.by_itself() | spread_days(before, own, after)
}
