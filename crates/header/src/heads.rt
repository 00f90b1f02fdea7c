// The lines of a header: which layout they have, their places, their ranges and what they say.
ghost use Rattle.std.specs.Prelude.{◌≡◌, ◌<◌, ◌≤◌, Bool, eqb, true, Some, IfOk};
ghost use Rattle.tariff.specs.Reply.{shown};
ghost use Rattle.tariff.specs.Sheet.{LONGEST_DAY};
ghost use Rattle.keys.specs.Keys.{KEYS};
ghost use Rattle.marks.specs.Word.{word};
ghost use Rattle.header.specs.Layout.{header_line, number_from, digit_from, line_in_range, layout_form, layout_range, layout_fault};
ghost use Rattle.header.specs.Header.{form_by, layout_by, count_by, marks_by};
ghost use Rattle.header.specs.Places.{is_keyed, Stands, RowStands, RowRead, Placed, fault_of, HeadRead};

use crate::layout::{Form, Layout, Line, PLACES};
use crate::{layout, rows};
use tariff::{Check, Marks};

// What a header of a form is read as: how many hours its day has, and the places of its lines and of what stands behind them, or its fault.
#[derive(Clone, Copy)]
pub struct Head {
    pub hours: usize,
    pub at: Result<[usize; PLACES], Check>,
}

// The place behind a line.
pub fn line_at(s: &[u8], at: usize, line: Line, hours: usize) -> Option<usize>
    requires { is_keyed line ≡ true }
    ensures { result ≡ header_line hours line s.now at }
{
    let next = match line {
        Line::Number(key, _, _) => lines::fields_at(s, at, key, 1).next,
        Line::Row(key, _) => rows::digits_at(s, keys::key_number(s, at, key)?, hours),
        Line::Run(key) => Some(rows::run_at(s, keys::key_number(s, at, key)?)),
        Line::Close => Some(at),
    };
    lines::line_end(s, next)
}

// The places of the lines and of what stands behind them, or the first line, from 1, that is not as printed.
pub fn places_of(s: &[u8], layout: Layout) -> Result<[usize; PLACES], Check>
    ensures told { fault_of result ≡ layout_form (layout_by layout.form layout.judged) layout.hours s.now }
    ensures placed { IfOk result (Placed (layout_by layout.form layout.judged) layout.hours s.now) }
{
    let mut at = [0usize; PLACES];
    for j in 0..layout.lines() {
        at[j + 1] = line_at(s, at[j], layout.line(j), layout.hours).ok_or(Check::Form(j + 1))?;
    }
    Ok(at)
}

// The number behind a key.
pub fn number_of(s: &[u8], at: usize, key: usize) -> i64
    requires { key < KEYS }
    ensures { result ≡ number_from key s.now (Some at) }
{
    lines::fields_at(s, at, key, 1).values[0]
}

// The digits of a row, one for each hour.
pub fn row_at(s: &[u8], at: usize, key: usize, hours: usize) -> &[u8]
    requires { RowStands hours key s.now at }
    ensures { RowRead hours key s.now at result.now }
{
    let start = keys::key_number(s, at, key).unwrap_or(0);
    &s[start..start + hours]
}

// Whether what a line says is in its range.
pub fn in_range(s: &[u8], at: usize, line: Line, hours: usize) -> bool
    requires { Stands hours line s.now at }
    ensures { result ≡ line_in_range hours line s.now (Some at) }
{
    match line {
        Line::Number(key, least, most) => units::lies_in(number_of(s, at, key), least, most),
        Line::Row(key, admitted) => rows::all_admitted(row_at(s, at, key, hours), admitted),
        Line::Run(_) | Line::Close => true,
    }
}

// The first line, from 1, that is out of range, if there is one.
pub fn odd_line(s: &[u8], at: [usize; PLACES], layout: Layout) -> Result<(), Check>
    requires { Placed (layout_by layout.form layout.judged) layout.hours s.now at }
    ensures { shown result ≡ layout_range (layout_by layout.form layout.judged) layout.hours s.now }
{
    for j in 0..layout.lines() {
        if !in_range(s, at[j], layout.line(j), layout.hours) {
            return Err(Check::Range(j + 1));
        }
    }
    Ok(())
}

// The hours whose digit in a row is the one that is asked for, as a word.
pub fn row_word(s: &[u8], at: usize, key: usize, hours: usize, digit: u8) -> u32
    requires { RowStands hours key s.now at × (hours < 32) }
    ensures { result ≡ word hours (λ h. eqb (digit_from key s.now (Some at) h) digit) }
{
    rows::word_of(row_at(s, at, key, hours), digit)
}

// The marks of a day's sheet, where the rows are judged: an exception is a digit 1.
pub fn marks_of(s: &[u8], at: [usize; PLACES], form: Form, hours: usize) -> Marks
    requires day { (two : Bool) × (form ≡ form_by two) }
    requires placed { Placed (layout_by form true) hours s.now at }
    requires few { hours ≤ LONGEST_DAY }
    ensures { result ≡ marks_by (layout_by form true) hours s.now }
{
    let rtc = layout::unit_line(form) + 1;
    Marks {
        rtc: number_of(s, at[rtc], keys::RTC_LINE) == 1,
        cat: rows::categories(row_at(s, at[rtc + 1], keys::CAT_LINE, hours)),
        x1: row_word(s, at[rtc + 2], keys::X1_LINE, hours, 1),
        x2: row_word(s, at[rtc + 3], keys::X2_LINE, hours, 1),
        x3: row_word(s, at[rtc + 4], keys::X3_LINE, hours, 1),
        x4: row_word(s, at[rtc + 5], keys::X4_LINE, hours, 1),
        x5: row_word(s, at[rtc + 6], keys::X5_LINE, hours, 1),
        x6: row_word(s, at[rtc + 7], keys::X6_LINE, hours, 1),
    }
}

// The count of a day's hours: form 1 says none, and the others on their second line.
pub fn count_of(s: &[u8], form: Form) -> i64
    ensures { result ≡ count_by form s.now }
{
    if matches!(form, Form::One) {
        return tariff::USUAL_COUNT;
    }
    let first = Layout {
        form,
        judged: false,
        hours: 0,
    };
    line_at(s, 0, first.line(0), 0).map_or(0, |second| number_of(s, second, keys::HOURS_LINE))
}

// The places of a header's lines, or its fault: the form of all lines comes before their ranges.
pub fn lines_of(s: &[u8], layout: Layout) -> Result<[usize; PLACES], Check>
    ensures told { fault_of result ≡ layout_fault (layout_by layout.form layout.judged) layout.hours s.now }
    ensures placed { IfOk result (Placed (layout_by layout.form layout.judged) layout.hours s.now) }
{
    let at = places_of(s, layout)?;
    odd_line(s, at, layout)?;
    Ok(at)
}

// The first lines decide what the others have to be.
pub fn head_of(s: &[u8], form: Form) -> Head
    ensures { HeadRead form s.now result }
{
    let count = count_of(s, form);
    let layout = Layout {
        form,
        judged: ranges::is_count(count),
        hours: ranges::hours_by(count),
    };
    Head {
        hours: layout.hours,
        at: lines_of(s, layout),
    }
}
