// Digits at a place of a text.
ghost use Rattle.std.specs.Prelude.{◌≡◌, ◌<◌, Some};
ghost use Rattle.text.specs.Number.{more_digits, natural_at, Small};

use crate::digit_at;

// Up to six digits more, after a first one: what all of them say, and the place after them.
#[tactic(auto, using(crate::proofs::Numbers::digits_step))]
fn more_digits(s: &[u8], at: usize, first: u32) -> (u32, usize)
    requires { first < 10 }
    ensures { (Some result ≡ more_digits 6 first s.now at) × Small (Some result) }
{
    let mut v = first;
    let mut next = at;
    for _ in 0..6u8 {
        let Some(digit) = digit_at(s, next) else {
            return (v, next);
        };
        v = v * 10 + u32::from(digit);
        next += 1;
    }
    (v, next)
}

// The digit behind which no other one stands.
const LONE_DIGIT: u8 = 0;

// One to seven digits with no leading zero: what they say, and the place after them.
#[tactic(auto, using(crate::proofs::Numbers::digits_said), unfolding(crate::specs::Number::natural_at))]
pub fn natural_at(s: &[u8], at: usize) -> Option<(u32, usize)>
    ensures { (result ≡ natural_at s.now at) × Small result }
{
    let first = digit_at(s, at)?;
    if first == LONE_DIGIT {
        return Some((0, at + 1));
    }
    Some(more_digits(s, at + 1, u32::from(first)))
}
