// Numbers and keys at a place of a text. Every call takes any text and any place.
#![tactic(auto)]

ghost use Rattle.std.specs.Prelude.{◌≡◌, slice_get};
ghost use Rattle.text.specs.Text.{key_at};
ghost use Rattle.text.specs.Number.{digit_said, number_at};

mod digits;

// The byte at a place, or none past the end.
pub fn byte_at(s: &[u8], at: usize) -> Option<u8>
    ensures { result ≡ slice_get s.now at }
{
    s.get(at).copied()
}

// The digit at a place, or none.
#[tactic(auto, using(crate::proofs::Numbers::digits_said))]
pub fn digit_at(s: &[u8], at: usize) -> Option<u8>
    ensures { result ≡ digit_said s.now at }
{
    let b = byte_at(s, at)?;
    if b.is_ascii_digit() {
        Some(b - b'0')
    } else {
        None
    }
}

// The one parser of numbers: a number and the place after it, or none.
#[tactic(auto, using(crate::proofs::Numbers::numbers))]
pub fn number_at(s: &[u8], at: usize) -> Option<(i64, usize)>
    ensures { result ≡ number_at s.now at }
{
    if byte_at(s, at) == Some(b'-') {
        let (v, next) = digits::natural_at(s, at + 1)?;
        if v == 0 {
            return None;
        }
        return Some((-i64::from(v), next));
    }
    let (v, next) = digits::natural_at(s, at)?;
    Some((i64::from(v), next))
}

// A key, a fixed byte string, compared at the cursor: the place after it, or none. Most keys that do not stand there differ in their first
// byte, which is looked at before anything else.
#[tactic(auto, using(crate::proofs::Keys::keys))]
pub fn key_at(s: &[u8], at: usize, key: &[u8]) -> Option<usize>
    ensures { result ≡ key_at key.now s.now at }
{
    let Some(first) = key.first() else {
        return Some(at);
    };
    if byte_at(s, at)? != *first {
        return None;
    }
    if s[at..].starts_with(key) {
        Some(at + key.len())
    } else {
        None
    }
}
