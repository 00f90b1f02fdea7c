// The lent row: contributions to its front, and what is answered.
#![tactic(auto)]

ghost use Rattle.std.specs.Prelude.{◌≡◌, pos, length, get_or};
ghost use Rattle.tariff.specs.Units.{grains};
ghost use Rattle.tariff.specs.Reply.{told};
ghost use Rattle.lent.specs.Lent.{payment, raws, row_paid};

use tariff::{Answer, Check, Grains};

// A block has no more intervals than these.
const MOST: usize = 30;

// The contributions as the row holds them.
fn raws_of(parts: [Grains; 30]) -> [i64; 30]
    ensures { result ≡ raws parts }
{
    parts.map(|g| g.0)
}

// Pays an hour of `n` intervals that no check refused, into a row that is long enough, or refuses it for want of room and leaves the
// row as it was.
#[tactic(auto, using(crate::proofs::Rows::front_of), unfolding(crate::specs::Lent::payment, crate::specs::Lent::row_paid))]
pub fn pay(parts: [Grains; 30], n: usize, sum: Grains, row: &mut [i64]) -> Answer
    ensures reply { told result ≡ payment n sum.0 (length row.old) }
    ensures row { row.new ≡ row_paid parts n sum.0 row.old }
{
    if MOST < n || row.len() < n {
        return Answer::Refused(Check::Room);
    }
    let raws = raws_of(parts);
    row[..n].copy_from_slice(&raws[..n]);
    Answer::Paid(sum, units::cents_of(sum))
}
