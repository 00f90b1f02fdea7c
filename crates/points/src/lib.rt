// What an interval asks before its derate, for any values: nothing if it lags, and else its operating point, which the sheet gives or leaves to
// the real-time curve.
#![tactic(auto)]

ghost use Rattle.std.specs.Prelude.{◌≡◌, length};
ghost use Rattle.std.specs.Int.Signed.{le_z};
ghost use Rattle.std.specs.List.{take_while};
ghost use Rattle.tariff.specs.Point.{point_by};
ghost use Rattle.points.specs.Standing.{point_found, to_maybe, standing_of};

use tariff::{Curve, Interval, Kw, Price};

// An interval that lags asks nothing (25.4). One that has its operating point can be derated and priced; one that should find it on a curve
// without steps has none.
#[derive(Clone, Copy)]
pub enum Standing {
    Lags,
    Pointless,
    At(Kw),
}

// How many steps are taken: each costs no more than `pen`, with every step before it. The scan goes over all of them and keeps in `before` whether
// every step so far is taken, since none is taken behind a dear one.
fn steps_taken(at: &[Price], pen: Price) -> usize
    ensures { result ≡ length (take_while (λ p. le_z p.0 pen.0) at.now) }
{
    let mut taken = 0;
    let mut before = true;
    for (k, p) in at.iter().enumerate() {
        before = before & (*p <= pen);
        if before {
            taken = k + 1;
        }
    }
    taken
}

// The operating point that a real-time curve has at the price `pen`: the end of the last step that is taken, and the curve's start where none is.
// A count above 12 is FORM's to refuse: such a curve has no point here.
#[tactic(auto, using(crate::proofs::Taken::found_none, crate::proofs::Taken::found_many, crate::proofs::Taken::found_behind))]
fn point_on(c: Curve, pen: Price) -> Option<Kw>
    ensures { result ≡ to_maybe (point_found c pen.0) }
{
    if c.n == 0 || 12 < c.n {
        return None;
    }
    let taken = steps_taken(&c.at[..c.n], pen);
    Some(if taken == 0 { c.start } else { c.to[taken - 1] })
}

// E: the operating point that the sheet gives, or the one that the real-time curve has.
fn point_of(rt: Curve, v: Interval) -> Option<Kw>
    ensures { result ≡ to_maybe (point_by v.eop (point_found rt v.pen.0)) }
{
    v.eop.or_else(|| point_on(rt, v.pen))
}

// Where an interval stands. One that lags asks nothing, and so lacks nothing.
#[tactic(auto, using(crate::proofs::Stands::held_at, crate::proofs::Stands::held_not), unfolding(crate::specs::Standing::standing_of))]
pub fn standing_of(rt: Curve, v: Interval) -> Standing
    ensures { result ≡ standing_of rt v }
{
    if limits::lags(v) {
        return Standing::Lags;
    }
    match point_of(rt, v) {
        Some(e) => Standing::At(e),
        None => Standing::Pointless,
    }
}
