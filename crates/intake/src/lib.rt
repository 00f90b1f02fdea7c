// A text of any length in bounded memory: what of it decides its answers.
#![tactic(auto)]

ghost use Rattle.std.specs.Prelude.{◌≡◌, true, ◌+◌, ◌-◌, ◌≤◌, length};
ghost use Rattle.lines.specs.Pieces.{PIECE};
ghost use Rattle.io.specs.Counts.{IsPrefixLen};
ghost use Rattle.intake.specs.Intake.{after, kept, placed, after_all, store_all, at_first, begun, TakenMore, goes_past};
ghost use Rattle.intake.specs.Front.{PartCame, FrontTaken};

use std::io::{Read, Stdin};

mod squeeze;
mod stretch;

// The longest input is a day's: three headers, its own and those of the days before and after it, and 25 blocks. A line's day and an import have fewer,
// and are settled alike however many more are kept. Of each piece at most lines::PIECE bytes and three more are, and a byte of what follows.
pub const PIECES: usize = 28;

pub const DAY: usize = PIECES * (lines::PIECE + 3) + 5;

// Room for the front of a sheet: what decides its header, and behind that a read of 65,536 bytes.
pub const FRONT: usize = lines::PIECE + 65536;

// How far a text is taken in: `n` bytes are kept, `run` of them of this piece, a line begins here or not, and `left` pieces are
// still to close. `run` goes no further than lines::PIECE; behind the last piece it is 1 once a byte was kept.
#[derive(Clone, Copy)]
pub struct Intake {
    pub n: usize,
    pub run: usize,
    pub start: bool,
    pub left: usize,
}

// A text of so many pieces at its beginning.
pub fn at_first(pieces: usize) -> Intake
    ensures { result ≡ at_first pieces }
{
    Intake {
        n: 0,
        run: 0,
        start: true,
        left: pieces,
    }
}

impl Intake {
    // Of a piece of which enough is kept only its empty line still is, behind an `x`: the first line feed ends the line that was cut, the
    // second is the empty line.
    #[tactic(auto, unfolding(crate::specs::Intake::kept, crate::specs::Intake::after))]
    fn pass(self, store: &mut [u8], b: u8) -> Intake
        requires { (self.n + 3 ≤ length store.old) × (self.left ≡ 0 → ⊥) × (PIECE ≤ self.run) }
        ensures state { result ≡ after self b }
        ensures store { store.new ≡ placed store.old self.n (kept self b) }
    {
        let feed = b == b'\n';
        if self.start && feed {
            store[self.n..self.n + 3].copy_from_slice(b"x\n\n");
            return Intake {
                n: self.n + 3,
                ..at_first(self.left - 1)
            };
        }
        Intake {
            start: feed,
            ..self
        }
    }

    // Takes in one byte. Behind the last piece one byte is kept: it tells that the text goes on.
    #[tactic(auto, using(crate::proofs::Step::placed_one), unfolding(crate::specs::Intake::kept, crate::specs::Intake::after))]
    fn next(self, store: &mut [u8], b: u8) -> Intake
        requires { self.n + 3 ≤ length store.old }
        ensures state { result ≡ after self b }
        ensures store { store.new ≡ placed store.old self.n (kept self b) }
    {
        if self.left == 0 {
            if self.run > 0 {
                return Intake { run: 1, ..self };
            }
            store[self.n] = b;
            return Intake {
                n: self.n + 1,
                run: 1,
                ..self
            };
        }
        if lines::PIECE <= self.run {
            return self.pass(store, b);
        }
        store[self.n] = b;
        let feed = b == b'\n';
        if self.start && feed {
            return Intake {
                n: self.n + 1,
                ..at_first(self.left - 1)
            };
        }
        Intake {
            n: self.n + 1,
            run: self.run + 1,
            start: feed,
            ..self
        }
    }
}

// Takes in what was read of a text, as far as the store has room: a stretch of a line at once, any other byte by itself.
#[tactic(auto, using(crate::proofs::Store::no_room_lem, crate::proofs::Store::one_more, crate::proofs::Store::all_taken, crate::proofs::Stretches::part_fits))]
pub fn keep(store: &mut [u8], i: Intake, bytes: &[u8]) -> Intake
    ensures state { result ≡ after_all store.old i bytes.now }
    ensures store { store.new ≡ store_all store.old i bytes.now }
{
    let mut state = i;
    let mut rest = bytes;
    while let Some((b, behind)) = rest.split_first() {
        let free = store.len().saturating_sub(state.n);
        if free < 3 {
            return state;
        }
        let m = state.stretch_of(free - 2, rest);
        if m == 0 {
            state = state.next(store, *b);
            rest = behind;
        } else {
            let (part, after) = rest.split_at(m);
            state = state.take_stretch(store, part);
            rest = after;
        }
    }
    state
}

// A text that comes in reads: what is kept, how far its headers are squeezed, and whether its end was met.
#[derive(Clone, Copy)]
pub struct Taken {
    pub kept: Intake,
    pub squeezed: squeeze::Squeeze,
    pub ended: bool,
}

// A text at its beginning, with so many headers.
pub fn begin(pieces: usize, headers: usize) -> Taken
    ensures { result ≡ begun pieces headers }
{
    Taken {
        kept: at_first(pieces),
        squeezed: squeeze::at_first(headers),
        ended: false,
    }
}

// What one read of standard input brought: `n` bytes of it stand squeezed, and whether the input's end was met.
#[derive(Clone, Copy)]
pub struct Part {
    pub n: usize,
    pub squeezed: squeeze::Squeeze,
    pub ended: bool,
}

// Reads once, to the front of a row; a read that fails is the input's end. Which bytes come cannot be said: what stands is some text, squeezed.
fn read_part(mut stdin: Stdin, row: &mut [u8], squeezed: squeeze::Squeeze) -> Part
    ensures within { IsPrefixLen result.n row.new }
    ensures came { PartCame squeezed row.new result }
{
    let n = stdin.read(row).unwrap_or(0);
    let part = squeeze::in_place(&mut row[..n], squeezed);
    Part {
        n: part.n,
        squeezed: part.state,
        ended: n == 0,
    }
}

// Takes in what one read of standard input brings. Which bytes that are cannot be said: the store is what some of them leave.
pub fn take_some(stdin: Stdin, store: &mut [u8], taken: Taken) -> Taken
    ensures { TakenMore store.old taken store.new result }
{
    let mut chunk = io::large_buffer();
    let part = read_part(stdin, &mut chunk, taken.squeezed);
    Taken {
        kept: keep(store, taken.kept, &chunk[..part.n]),
        squeezed: part.squeezed,
        ended: part.ended,
    }
}

// The front of a sheet: `n` bytes of it stand in a store. `ended` says that no more is read: the input's end was met, or the store is full.
#[derive(Clone, Copy)]
pub struct Front {
    pub n: usize,
    pub ended: bool,
}

// Takes in the front of a sheet, read by read, until its header has closed or lines::PIECE bytes of it stand: no further byte can change how the
// header is judged. Nothing says that an input ends, so the turns have a bound that no run reaches.
#[tactic(auto, using(crate::proofs::Fronts::none_yet, crate::proofs::Fronts::a_part_more))]
pub fn take_front(stdin: Stdin, store: &mut [u8]) -> Front
    ensures within { IsPrefixLen result.n store.new }
    ensures taken { FrontTaken store.new result }
{
    let mut squeezed = squeeze::at_first(1);
    let mut n = 0;
    for _ in 0..u64::MAX {
        let part = read_part(stdin, &mut store[n..], squeezed);
        squeezed = part.squeezed;
        n += part.n;
        if part.ended || squeezed.headers == 0 || lines::PIECE <= n {
            return Front {
                n,
                ended: part.ended,
            };
        }
    }
    Front { n, ended: true }
}

// Whether a byte stands behind the first `needed` of so many pieces: then no further one can matter.
#[tactic(auto, unfolding(crate::specs::Intake::goes_past))]
pub fn goes_past(i: Intake, pieces: usize, needed: usize) -> bool
    ensures { result ≡ goes_past i pieces needed }
{
    let Some(closed) = pieces.checked_sub(i.left) else {
        return false;
    };
    needed < closed || (needed == closed && i.run > 0)
}
