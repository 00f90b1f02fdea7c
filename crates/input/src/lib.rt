// Standard input of any length: read to its end, or until a byte stands behind the last block, since no further one can matter.
#![tactic(auto)]

ghost use Rattle.std.specs.Prelude.{◌≡◌, take, ◌+◌};
ghost use Rattle.io.specs.Counts.{IsPrefixLen};
ghost use Rattle.intake.specs.Intake.{PIECES, TakenIn};
ghost use Rattle.input.specs.Said.{heads_of, front_pieces, hours_said};

use std::io::Stdin;

// Which text it is: a day's sheet with its neighbours' headers, the day of an internal controllable line, or an import.
#[derive(Clone, Copy)]
enum Kind {
    Day,
    Line,
    Import,
}

// How many headers it has, in which long runs of digits are squeezed: an import is taken in as it is.
fn heads_of(kind: Kind) -> usize
    ensures { result ≡ heads_of kind }
{
    match kind {
        Kind::Day => 3,
        Kind::Line => 1,
        Kind::Import => 0,
    }
}

// How many pieces stand in front of its blocks: its headers, or an import's first two lines.
fn front_pieces(kind: Kind) -> usize
    ensures { result ≡ front_pieces kind }
{
    match kind {
        Kind::Day => 3,
        Kind::Line => 1,
        Kind::Import => 1,
    }
}

// How many hours its day has by what its first bytes say: a day's own header stands behind that of the day before.
fn hours_of(text: &[u8], kind: Kind) -> usize
    ensures { result ≡ hours_said kind text.now }
{
    match kind {
        Kind::Day => {
            let own = lines::piece_after(text, 0);
            let header = header::read_header(&text[own..]);
            header.hours
        }
        Kind::Line => {
            let header = header::read_icl_header(text);
            header.hours
        }
        Kind::Import => imports::hours_of(text),
    }
}

// How many pieces a store's first n bytes then say: what stands in front of the blocks, and a block for each hour.
fn pieces_in(store: &[u8], n: usize, kind: Kind) -> usize
    requires { IsPrefixLen n store.now }
    ensures { result ≡ hours_said kind (take n store.now) + front_pieces kind }
{
    hours_of(&store[..n], kind) + front_pieces(kind)
}

// Takes in a text read by read; answers how many bytes of the store are kept. Nothing says that an input ends, so the turns are counted down
// from a number that no run uses up.
fn take_text(stdin: Stdin, store: &mut [u8], kind: Kind) -> usize
    ensures within { IsPrefixLen result store.new }
    ensures taken { TakenIn store.old PIECES (heads_of kind) store.new result }
{
    let mut taken = intake::begin(intake::PIECES, heads_of(kind));
    let mut turns = u64::MAX;
    while turns > 0 {
        taken = intake::take_some(stdin, store, taken);
        let kept = taken.kept;
        let n = kept.n;
        if taken.ended {
            return n;
        }
        if intake::goes_past(kept, intake::PIECES, pieces_in(store, n, kind)) {
            return n;
        }
        turns -= 1;
    }
    let kept = taken.kept;
    kept.n
}

// Takes in what `day` reads: a day's sheet, its header between those of the days before and after.
pub fn take_day(stdin: Stdin, store: &mut [u8]) -> usize
    ensures within { IsPrefixLen result store.new }
    ensures taken { TakenIn store.old PIECES 3 store.new result }
{
    take_text(stdin, store, Kind::Day)
}

// Takes in the day of an internal controllable line.
pub fn take_line(stdin: Stdin, store: &mut [u8]) -> usize
    ensures within { IsPrefixLen result store.new }
    ensures taken { TakenIn store.old PIECES 1 store.new result }
{
    take_text(stdin, store, Kind::Line)
}

// Takes in an import's text.
pub fn take_import(stdin: Stdin, store: &mut [u8]) -> usize
    ensures within { IsPrefixLen result store.new }
    ensures taken { TakenIn store.old PIECES 0 store.new result }
{
    take_text(stdin, store, Kind::Import)
}
