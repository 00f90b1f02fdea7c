// The one table of keys: fixed byte strings, compared at the cursor. Every call takes any text, any place and any number.
#![tactic(auto)]

ghost use Rattle.std.specs.Prelude.{◌≡◌};
ghost use Rattle.text.specs.Text.{key_at};
ghost use Rattle.keys.specs.Keys.{key_of, may_miss};

mod table;

// The number of the first key of each kind of line, as specs/Keys.antt has them: line 1 of an hour block, its curve lines and their
// pairs, and its interval lines with their reserves and regulation;
pub const AHEAD: usize = 0;

pub const DA: usize = 10;

pub const RT: usize = 12;

pub const PAIR: usize = 14;

pub const INTERVAL: usize = 16;

pub const RESERVES: usize = 24;

pub const REGULATION: usize = 30;
// the first line of an import, line 1 of its blocks, and their interval lines;
pub const IMPORT: usize = 36;

pub const IMPORT_HOUR: usize = 39;

pub const CURTAILED: usize = 42;
// and a day's header, a key to a line,
pub const HEADER: usize = 49;
// each of which has a name.
pub const FORM_LINE: usize = 49;

pub const HOURS_LINE: usize = 50;

pub const UNIT_LINE: usize = 51;

pub const RTC_LINE: usize = 52;

pub const CAT_LINE: usize = 53;

pub const X1_LINE: usize = 54;

pub const X2_LINE: usize = 55;

pub const X3_LINE: usize = 56;

pub const X4_LINE: usize = 57;

pub const X5_LINE: usize = 58;

pub const X6_LINE: usize = 59;
// Of an internal controllable line the two keys of its header that a day's has not, line 1 of its blocks, and their interval lines.
pub const LINE_LINE: usize = 60;

pub const MARK_LINE: usize = 61;

pub const ICL_HOUR: usize = 62;

pub const ICL_INTERVAL: usize = 65;
// The count of all keys.
pub const KEYS: usize = 71;

// The two keys whose number may be missing, `eop` and `uol`.
pub const EOP: usize = 20;

pub const UOL: usize = 23;

// Whether a minus alone may stand for the number of key k.
pub fn may_miss(k: usize) -> bool
    ensures { result ≡ may_miss k }
{
    matches!(k, EOP | UOL)
}

// Key k at a place. A number past the table's is the empty key, which stands anywhere.
pub fn key_number(s: &[u8], at: usize, k: usize) -> Option<usize>
    ensures { result ≡ key_at (key_of k) s.now at }
{
    if k < KEYS {
        text::key_at(s, at, table::TABLE[k])
    } else {
        Some(at)
    }
}
