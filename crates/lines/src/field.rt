// A field, and the one loop over a line's keys.
ghost use Rattle.std.specs.Prelude.{◌≡◌, ◌+◌, ◌≤◌, length, replicate, pos};
ghost use Rattle.keys.specs.Keys.{KEYS};
ghost use Rattle.exact.specs.Whole.{up_to};
ghost use Rattle.lines.specs.Line.{value_at, field_at, after_fields, value_in};

// A number that seven digits cannot say stands for one that is missing.
const MISSING: i64 = 10000000;

// The value behind key k. Those of `eop` and `uol` may be missing.
#[tactic(auto, using(text::proofs::Numbers::is_byte, text::proofs::Numbers::byte_inside), unfolding(crate::specs::Line::value_at))]
pub fn value_at(s: &[u8], at: usize, k: usize) -> Option<(i64, usize)>
    ensures { result ≡ value_at k s.now at }
{
    let number = text::number_at(s, at);
    if number.is_none() && keys::may_miss(k) && text::byte_at(s, at) == Some(b'-') {
        return Some((MISSING, at + 1));
    }
    number
}

// Key k and its value: the one way to read a field.
#[tactic(auto, unfolding(crate::specs::Line::field_at))]
pub fn field_at(s: &[u8], at: usize, k: usize) -> Option<(i64, usize)>
    ensures { result ≡ field_at k s.now at }
{
    value_at(s, keys::key_number(s, at, k)?, k)
}

// A field for each of the values, from key `first` on, and the place after them: the one loop over a line's keys. From the first wrong field on the
// values stay as they were.
pub fn each_at(s: &[u8], at: usize, first: usize, values: &mut [i64]) -> Option<usize>
    requires table { first + length values.old ≤ KEYS }
    requires blank { values.old ≡ replicate (length values.old) (pos 0) }
    ensures next { result ≡ after_fields first (length values.old) s.now at }
    ensures values { values.new ≡ up_to (value_in first s.now at) (length values.old) }
{
    let mut i = at;
    for (n, value) in values.iter_mut().enumerate() {
        let (v, next) = field_at(s, i, first + n)?;
        *value = v;
        i = next;
    }
    Some(i)
}
