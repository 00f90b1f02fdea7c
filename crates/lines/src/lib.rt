// Lines of keys and values: the one way to read fields, whatever the lines are of. Every call takes any
// text, any place and any numbers.
#![tactic(auto)]

ghost use Rattle.std.specs.Prelude.{◌≡◌, drop};
ghost use Rattle.lines.specs.Cut.{empty_in};
ghost use Rattle.lines.specs.Pieces.{piece_after};
ghost use Rattle.lines.specs.Line.{fields_at, and_then, line_feed, closes, ends_empty};

mod field;

// Of a piece so many bytes decide, as specs/Pieces.antt has it.
pub const PIECE: usize = 10640;

// No line has more fields.
const WIDTH: usize = 20;

// The values of a line's fields, and the place after them.
#[derive(Clone, Copy)]
pub struct Fields {
    pub next: Option<usize>,
    pub values: [i64; 20],
}

// `count` fields from key `first` on. Keys past the table, or more than 20 fields, are no line.
pub fn fields_at(s: &[u8], at: usize, first: usize, count: usize) -> Fields
    ensures { result ≡ fields_at first count s.now at }
{
    let mut values = [0i64; WIDTH];
    if WIDTH < count || keys::KEYS - count < first {
        return Fields { next: None, values };
    }
    let next = field::each_at(s, at, first, &mut values[..count]);
    Fields { next, values }
}

// The end of the line, where its fields were as printed.
pub fn line_end(s: &[u8], next: Option<usize>) -> Option<usize>
    ensures { result ≡ and_then next (line_feed s.now) }
{
    text::key_at(s, next?, b"\n")
}

// A block ends at the end of input or at an empty line.
#[tactic(auto, using(text::proofs::Numbers::byte_none, text::proofs::Numbers::byte_read), unfolding(crate::specs::Line::closes))]
pub fn is_closed(s: &[u8], at: usize) -> bool
    ensures { result ≡ closes s.now at }
{
    matches!(text::byte_at(s, at), None | Some(b'\n'))
}

// Whether the first n bytes end with an empty line, so that the block in front is whole.
pub fn is_whole(text: &[u8], n: usize) -> bool
    ensures { result ≡ ends_empty text.now n }
{
    matches!(text.get(..n), Some([b'\n'] | [.., b'\n', b'\n']))
}

// The place behind the first empty line from a place on; `start` says that a line begins there.
pub fn empty_line(s: &[u8], at: usize, start: bool) -> Option<usize>
    ensures { result ≡ empty_in start (drop at s.now) at }
{
    let mut begins = start;
    for (n, b) in s.get(at..)?.iter().enumerate() {
        let feed = *b == b'\n';
        if feed && begins {
            return Some(at + n + 1);
        }
        begins = feed;
    }
    None
}

// The place behind the piece that begins at a place: after its empty line, or the text's end.
#[tactic(auto, using(crate::proofs::Pieces::or_end_is), unfolding(crate::specs::Pieces::piece_after))]
pub fn piece_after(s: &[u8], at: usize) -> usize
    ensures { result ≡ piece_after s.now at }
{
    empty_line(s, at, true).unwrap_or(s.len())
}
