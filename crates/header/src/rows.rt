// Rows of marks, over the count of a day's hours: a day on which the clock changes has another count.
ghost use Rattle.std.specs.Prelude.{◌≡◌, true, ◌-◌, ◌<◌, ◌≤◌, eqb, drop, length, slice_index, EachIndex, Some};
ghost use Rattle.std.specs.Char.{is_ascii_digit};
ghost use Rattle.std.specs.List.{take_while};
ghost use Rattle.tariff.specs.Sheet.{LONGEST_DAY, all_to};
ghost use Rattle.tariff.specs.Eligible.{marked};
ghost use Rattle.text.specs.Text.{ZERO};
ghost use Rattle.lines.specs.Line.{filled};
ghost use Rattle.marks.specs.Word.{word};
ghost use Rattle.header.specs.Layout.{digits_at, behind_run};

// The place after a digit for each hour.
#[tactic(auto, using(text::proofs::Numbers::digits_said, crate::proofs::Digits::digits_steps))]
pub fn digits_at(s: &[u8], at: usize, hours: usize) -> Option<usize>
    ensures { result ≡ digits_at hours s.now at }
{
    let mut next = at;
    for _ in 0..hours {
        text::digit_at(s, next)?;
        next += 1;
    }
    Some(next)
}

// How many digits a text begins with.
fn run_of(text: &[u8]) -> usize
    ensures { result ≡ length (take_while is_ascii_digit text.now) }
{
    text.iter().take_while(|b| b.is_ascii_digit()).count()
}

// The place behind the digits that stand from a place on.
#[tactic(auto, using(crate::proofs::Digits::run_behind, crate::proofs::Digits::run_inside))]
pub fn run_at(s: &[u8], at: usize) -> usize
    ensures { Some result ≡ behind_run s.now at }
{
    match s.get(at..) {
        Some(rest) => at + run_of(rest),
        None => at,
    }
}

// Whether each hour's digit is one of those that a word admits, digit d by bit d.
#[tactic(auto, using(tariff::proofs::Tests::all_none, tariff::proofs::Tests::all_next))]
pub fn all_admitted(row: &[u8], admitted: u32) -> bool
    requires { EachIndex row.now (λ h. ZERO ≤ slice_index row.now h) }
    ensures { result ≡ all_to (λ h. marked admitted (slice_index row.now h - ZERO)) (length row.now) }
{
    for b in row {
        if !marks::is_marked(admitted, u32::from(*b - b'0')) {
            return false;
        }
    }
    true
}

// The hours whose digit is `digit`, as a word.
#[tactic(auto, using(marks::proofs::Rows::word_none, marks::proofs::Rows::fill, marks::proofs::Rows::skip))]
pub fn word_of(row: &[u8], digit: u8) -> u32
    requires few { length row.now < 32 }
    requires digits { EachIndex row.now (λ h. ZERO ≤ slice_index row.now h) }
    ensures { result ≡ word (length row.now) (λ h. eqb (slice_index row.now h - ZERO) digit) }
{
    let mut word = 0;
    for (h, b) in row.iter().enumerate() {
        if *b - b'0' == digit {
            word |= 1 << h;
        }
    }
    word
}

// Each hour of the day.
pub fn every_hour(hours: usize) -> u32
    requires { hours < 32 }
    ensures { result ≡ word hours (λ h. true) }
{
    (1 << hours) - 1
}

// The digits themselves, in an array for the longest day.
#[tactic(auto, using(lines::proofs::Fill::fill_next), unfolding(exact::specs::Whole::up_to))]
pub fn categories(row: &[u8]) -> [u8; tariff::LONGEST_DAY]
    requires few { length row.now ≤ LONGEST_DAY }
    requires digits { EachIndex row.now (λ h. ZERO ≤ slice_index row.now h) }
    ensures { result ≡ filled (length row.now) LONGEST_DAY (λ h. slice_index row.now h - ZERO) 0 }
{
    let mut cat = [0u8; tariff::LONGEST_DAY];
    for (h, b) in row.iter().enumerate() {
        cat[h] = *b - b'0';
    }
    cat
}
