// The lines of a header as data, in each form: a day's sheet has two, and the day of an internal controllable line (ICL) has its own.
ghost use Rattle.std.specs.Prelude.{◌≡◌, true, ◌≤◌, length};
ghost use Rattle.keys.specs.Keys.{UNIT_LINE};
ghost use Rattle.header.specs.Layout.{line_in, line_of};
ghost use Rattle.header.specs.Header.{row, unit_and_marks, layout_by};

// Which lines a header has to have.
#[derive(Clone, Copy)]
pub enum Form {
    One,
    Two,
    Icl,
}

// A number behind a key, with the least and the most that it may be; a row of digits behind a key, with those that it may have, digit d by bit d;
// a run of any digits behind a key; or the closing empty line.
#[derive(Clone, Copy)]
pub enum Line {
    Number(usize, i64, i64),
    Row(usize, u32),
    Run(usize),
    Close,
}

// The digits 0, 1, 3, 4 and 5, since category 2 is none; 0 and 1; and 0, 1 and 2, since an ICL is marked (i) or (ii).
pub const CATEGORIES: u32 = 59;

pub const MARKS: u32 = 3;

pub const ICL_MARKS: u32 = 7;

// The most places that a header's lines have, with that behind the last: form 2 has twelve lines.
pub const PLACES: usize = 13;

// The lines from `unit` on, which both forms of a day's sheet have, with rows that are judged.
static UNIT_AND_MARKS: [Line; 10] = [
    Line::Number(keys::UNIT_LINE, 1, 9999999),
    Line::Number(keys::RTC_LINE, 0, 1),
    Line::Row(keys::CAT_LINE, CATEGORIES),
    Line::Row(keys::X1_LINE, MARKS),
    Line::Row(keys::X2_LINE, MARKS),
    Line::Row(keys::X3_LINE, MARKS),
    Line::Row(keys::X4_LINE, MARKS),
    Line::Row(keys::X5_LINE, MARKS),
    Line::Row(keys::X6_LINE, MARKS),
    Line::Close,
];

// A row of marks: unjudged where no day has as many hours as the header says.
fn row_of(judged: bool, key: usize, admitted: u32) -> Line
    ensures { result ≡ row judged key admitted }
{
    if judged {
        Line::Row(key, admitted)
    } else {
        Line::Run(key)
    }
}

// Line j, from 0, of those from `unit` on. Past the closing line there is none but it.
fn common_line(judged: bool, j: usize) -> Line
    ensures { result ≡ line_in (unit_and_marks judged) j }
{
    if UNIT_AND_MARKS.len() <= j {
        return Line::Close;
    }
    match UNIT_AND_MARKS[j] {
        Line::Row(key, admitted) => row_of(judged, key, admitted),
        line => line,
    }
}

// The line of `unit`, from 0: form 2 has a line more in front of it. An ICL's header has none, and then it is the count of its lines.
pub fn unit_line(form: Form) -> usize
    ensures { (result ≡ line_of UNIT_LINE (layout_by form true)) × (result ≤ 4) }
{
    match form {
        Form::One => 1,
        Form::Two => 2,
        Form::Icl => 4,
    }
}

// A header's lines: those of its form, with rows that are judged or not, and as long as its day has hours.
#[derive(Clone, Copy)]
pub struct Layout {
    pub form: Form,
    pub judged: bool,
    pub hours: usize,
}

impl Layout {
    // Line j, from 0.
    pub fn line(self, j: usize) -> Line
        ensures { result ≡ line_in (layout_by self.form self.judged) j }
    {
        match self.form {
            Form::One => match j {
                0 => Line::Number(keys::FORM_LINE, 1, 1),
                _ => common_line(true, j - 1),
            },
            Form::Two => match j {
                0 => Line::Number(keys::FORM_LINE, 2, 2),
                1 => Line::Number(keys::HOURS_LINE, 23, 25),
                _ => common_line(self.judged, j - 2),
            },
            Form::Icl => match j {
                0 => Line::Number(keys::LINE_LINE, 1, 9999999),
                1 => Line::Number(keys::HOURS_LINE, 23, 25),
                2 => row_of(self.judged, keys::MARK_LINE, ICL_MARKS),
                _ => Line::Close,
            },
        }
    }

    // How many lines there are.
    pub fn lines(self) -> usize
        ensures { result ≡ length (layout_by self.form self.judged) }
    {
        match self.form {
            Form::One => 11,
            Form::Two => 12,
            Form::Icl => 4,
        }
    }
}
