// The headers of a text that comes in parts, without their long runs of digits: so one that is as printed has a bounded length.
ghost use Rattle.std.specs.Prelude.{◌≡◌, ◌≤◌, length, take};
ghost use Rattle.io.specs.Counts.{IsPrefixLen};
ghost use Rattle.intake.specs.Squeeze.{standing, squeeze_first, squeeze_next, squeezed_by, squeeze_after};

// So many digits of a run stand: no number has as many, and no row of marks that is read.
const RUN: usize = 32;

// How far a text is squeezed: `headers` of its first pieces are still to close, a line begins here or not, and `run` digits stand in front.
#[derive(Clone, Copy)]
pub struct Squeeze {
    pub headers: usize,
    pub start: bool,
    pub run: usize,
}

// A part that is squeezed: `n` bytes of it are left.
#[derive(Clone, Copy)]
pub struct Squeezed {
    pub n: usize,
    pub state: Squeeze,
}

// A text at its beginning, with so many headers. One without any is not squeezed.
pub fn at_first(headers: usize) -> Squeeze
    ensures { result ≡ squeeze_first headers }
{
    Squeeze {
        headers,
        start: true,
        run: 0,
    }
}

impl Squeeze {
    // How many bytes stand of the next one: 1, or 0 of a digit behind RUN of them.
    #[tactic(auto, unfolding(crate::specs::Squeeze::standing))]
    fn stands(self, b: u8) -> usize
        ensures count { result ≡ length (standing self b) }
        ensures few { result ≤ 1 }
    {
        if self.headers > 0 && b.is_ascii_digit() && RUN <= self.run {
            0
        } else {
            1
        }
    }

    // How far the text is squeezed behind the next byte.
    #[tactic(auto, unfolding(crate::specs::Squeeze::squeeze_next, crate::specs::Squeeze::standing))]
    fn next(self, b: u8) -> Squeeze
        ensures { result ≡ squeeze_next self b }
    {
        if self.headers == 0 {
            return self;
        }
        let feed = b == b'\n';
        if self.start && feed {
            return at_first(self.headers - 1);
        }
        let run = if b.is_ascii_digit() {
            self.run + self.stands(b)
        } else {
            0
        };
        Squeeze {
            start: feed,
            run,
            ..self
        }
    }
}

// Squeezes a part to its own front. Where the last header is closed and nothing was left out, the rest stands already.
#[tactic(auto, using(crate::proofs::Squeezes::next_byte, crate::proofs::Squeezes::all_come, crate::proofs::Squeezes::rest_stands))]
pub fn in_place(part: &mut [u8], first: Squeeze) -> Squeezed
    ensures within { IsPrefixLen result.n part.new }
    ensures text { take result.n part.new ≡ squeezed_by first part.old }
    ensures state { result.state ≡ squeeze_after first part.old }
{
    let mut state = first;
    let mut left = 0;
    for at in 0..part.len() {
        if state.headers == 0 && left == at {
            return Squeezed {
                n: part.len(),
                state,
            };
        }
        let b = part[at];
        part[left] = b;
        left += state.stands(b);
        state = state.next(b);
    }
    Squeezed { n: left, state }
}
