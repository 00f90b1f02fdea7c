// A header, of a day's sheet or of an internal controllable line's (ICL's) day: its lines as bytes in, the marks and the count of its hours out, or
// the line that refuses them.
#![tactic(auto)]

ghost use Rattle.std.specs.Prelude.{◌≡◌};
ghost use Rattle.tariff.specs.Reply.{shown};
ghost use Rattle.marks.specs.Word.{word};
ghost use Rattle.header.specs.Header.{header_fault, is_form2, form_of, hours_of, unit_line, marks_under, unit_under};
ghost use Rattle.header.specs.IclHeader.{icl_header_fault, icl_hours_of, icl_unmarked_under, icl_next_under};

use crate::layout::Form;
use tariff::{Check, Marks};

mod heads;
mod layout;
mod rows;

// What a header says: its fault or none, the day's marks, how many hours it has, the unit, and the line of that, from 1.
#[derive(Clone, Copy)]
pub struct Header {
    pub found: Result<(), Check>,
    pub marks: Marks,
    pub hours: usize,
    pub unit: i64,
    pub line: usize,
}

// What an ICL's header says: its fault or none, the hours of its day that are not marked, how many it has, and the place behind it.
#[derive(Clone, Copy)]
pub struct IclHeader {
    pub found: Result<(), Check>,
    pub unmarked: u32,
    pub hours: usize,
    pub next: usize,
}

// Reads the header at the front of a text. Any bytes are judged. A refused header has no marks, so that no hour is eligible by it.
pub fn read_header(s: &[u8]) -> Header
    ensures found { shown result.found ≡ header_fault s.now }
    ensures marks { result.marks ≡ marks_under (header_fault s.now) s.now }
    ensures hours { result.hours ≡ hours_of s.now }
    ensures unit { result.unit ≡ unit_under (header_fault s.now) s.now }
    ensures line { result.line ≡ unit_line s.now }
{
    let form = form_of(s);
    let head = heads::head_of(s, form);
    let hours = head.hours;
    let unit = layout::unit_line(form);
    let line = unit + 1;
    match head.at {
        Ok(at) => Header {
            found: Ok(()),
            marks: heads::marks_of(s, at, form, hours),
            hours,
            unit: heads::number_of(s, at[unit], keys::UNIT_LINE),
            line,
        },
        Err(check) => Header {
            found: Err(check),
            marks: marks::no_marks(),
            hours,
            unit: 0,
            line,
        },
    }
}

// Reads the header at the front of an ICL's day. Any bytes are judged. An hour is eligible where it is marked (i) or (ii), and none is by a
// refused header.
pub fn read_icl_header(s: &[u8]) -> IclHeader
    ensures found { shown result.found ≡ icl_header_fault s.now }
    ensures unmarked { result.unmarked ≡ word (icl_hours_of s.now) (icl_unmarked_under (icl_header_fault s.now) s.now) }
    ensures hours { result.hours ≡ icl_hours_of s.now }
    ensures next { result.next ≡ icl_next_under (icl_header_fault s.now) s.now }
{
    let head = heads::head_of(s, Form::Icl);
    let hours = head.hours;
    match head.at {
        Ok(at) => IclHeader {
            found: Ok(()),
            unmarked: heads::row_word(s, at[2], keys::MARK_LINE, hours, 0),
            hours,
            next: at[4],
        },
        Err(check) => IclHeader {
            found: Err(check),
            unmarked: rows::every_hour(hours),
            hours,
            next: 0,
        },
    }
}

// Whether a sheet's first line says form 2, and so which lines its header has to have.
pub fn is_form2(s: &[u8]) -> bool
    ensures { result ≡ is_form2 s.now }
{
    heads::number_of(s, 0, keys::FORM_LINE) == 2
}

// The form that a sheet's first line says.
fn form_of(s: &[u8]) -> Form
    ensures { result ≡ form_of s.now }
{
    if is_form2(s) { Form::Two } else { Form::One }
}
