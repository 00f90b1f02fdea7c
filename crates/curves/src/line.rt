// A curve line from its first key on: the start, the count, and that many pairs.
ghost use Rattle.std.specs.Prelude.{◌≡◌, ◌+◌, ◌≤◌};
ghost use Rattle.keys.specs.Keys.{KEYS};
ghost use Rattle.curves.specs.CurveLine.{after_pairs, curve_read, line_read_at};
ghost use Rattle.curves.specs.Told.{count_of, curve_of};

use tariff::{Curve, Kw, Price};

// The count of a curve line, which is 0 to 12.
pub fn count_of(n: i64) -> Option<usize>
    ensures { result ≡ count_of n }
{
    if (0..=12).contains(&n) {
        Some(n as usize)
    } else {
        None
    }
}

// The curve from `start` on of the n pairs at a place, and the place after them.
pub fn pairs_at(s: &[u8], at: usize, start: Kw, n: usize) -> Option<(Curve, usize)>
    requires { n ≤ 12 }
    ensures { result ≡ curve_read (after_pairs n s.now at) (curve_of start n s.now at) }
{
    let mut to = [Kw(0); 12];
    let mut prices = [Price(0); 12];
    let mut i = at;
    for j in 0..n {
        let pair = lines::fields_at(s, i, keys::PAIR, 2);
        i = pair.next?;
        to[j] = Kw(pair.values[0]);
        prices[j] = Price(pair.values[1]);
    }
    Some((
        Curve {
            start,
            n,
            to,
            at: prices,
        },
        i,
    ))
}

// The curve line at a place, from key `first` on: its curve, and the place behind it.
pub fn line_from(s: &[u8], at: usize, first: usize) -> Option<(Curve, usize)>
    requires { first + 2 ≤ KEYS }
    ensures { result ≡ line_read_at first s.now at }
{
    let head = lines::fields_at(s, at, first, 2);
    let pairs = head.next?;
    let n = count_of(head.values[1])?;
    let (curve, end) = pairs_at(s, pairs, Kw(head.values[0]), n)?;
    Some((curve, lines::line_end(s, Some(end))?))
}
