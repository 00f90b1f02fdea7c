// A curve line of an hour block into its curve, and an hour block of any kind into its record. Any text and any place are taken.
#![tactic(auto)]

ghost use Rattle.std.specs.Prelude.{◌≡◌};
ghost use Rattle.curves.specs.CurveLine.{curve_read_at};

use tariff::Curve;

mod block;
mod line;

pub use block::{BlockKind, block_at};

// The curve line at a place, and the place behind it: that of the real-time curve where `live`, and else that of the day-ahead curve.
pub fn curve_at(s: &[u8], at: usize, live: bool) -> Option<(Curve, usize)>
    ensures { result ≡ curve_read_at live s.now at }
{
    line::line_from(s, at, if live { keys::RT } else { keys::DA })
}
