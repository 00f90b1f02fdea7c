// Five schedules in the order energy, regulation, r1, r2, r3, and their sharing: each step takes and gives arrays by value.
ghost use Rattle.std.specs.Prelude.{◌≡◌, true, false, ◌+◌, ◌<◌, ◌≤◌, pos, ◌-ℤ◌, MatchOption};
ghost use Rattle.exact.specs.Whole.{over, sum_to};
ghost use Rattle.tariff.specs.Sheet.{is_power};
ghost use Rattle.tariff.specs.Derate.{of_five, floor_of, remainder, one, share};
ghost use Rattle.tariff.specs.Rounds.{is_largest, served_in};
ghost use Rattle.derate.specs.Five.{kw_five, cut_five, kw_at, cut_at, served_at, Close, SmallFive};
ghost use Rattle.derate.specs.Derated.{all_powers};

use crate::cuts;
use crate::cuts::Cut;
use tariff::Kw;

// Five schedules, each in the range of power.
#[derive(Clone, Copy)]
pub struct Schedules {
    pub kw: [Kw; 5],
    ghost in_range: { Close kw },
}

// Five cuts, each at most the distance of two powers.
#[derive(Clone, Copy)]
pub struct Cuts {
    pub kw: [Cut; 5],
    ghost small: { SmallFive kw },
}

// A reduction: each POTRED, and REDtot, for which they have room.
#[derive(Clone, Copy)]
pub struct Reduction {
    pub potred: Cuts,
    pub redtot: Cut,
    ghost has_room: { redtot.0 ≤ of_five (cut_at potred.kw) },
}

// Whether a schedule or a limit is in the range of power.
pub fn is_power(k: Kw) -> bool
    ensures { result ≡ is_power k.0 }
{
    (-2000000..=2000000).contains(&k.0)
}

fn are_powers(d: [Kw; 5]) -> bool
    ensures { result ≡ all_powers d }
{
    d.iter().all(|k| is_power(*k))
}

impl Schedules {
    // Five schedules, or none where one of them is out of range.
    #[tactic(auto, using(crate::proofs::Fives::close_if))]
    pub fn of(kw: [Kw; 5]) -> Option<Schedules>
        ensures { MatchOption result (all_powers kw ≡ false) (λ s. (all_powers kw ≡ true) × (s.kw ≡ kw)) }
    {
        if !are_powers(kw) {
            return None;
        }
        Some(Schedules { kw })
    }

    #[tactic(auto, using(crate::proofs::Fives::five_added))]
    pub fn sum_five(self) -> Kw
        ensures { result.0 ≡ sum_to (kw_at self.kw) 5 }
    {
        let [en, reg, r1, r2, r3] = self.kw;
        en + reg + r1 + r2 + r3
    }

    // POTRED of each schedule: how far day ahead lies above real time, or nothing.
    pub fn potentials(self, rts: Schedules) -> Cuts
        ensures { result.kw ≡ cut_five (λ j. over (kw_at self.kw j -ℤ kw_at rts.kw j)) }
    {
        Cuts {
            kw: std::array::from_fn(|j| cuts::cut_from(self.kw[j], rts.kw[j])),
        }
    }

    // The schedules less their shares, which every later rule reads.
    #[tactic(auto, using(crate::proofs::Fives::kws_made))]
    pub fn reduce(self, red: Cuts) -> [Kw; 5]
        ensures { result ≡ kw_five (λ j. kw_at self.kw j -ℤ pos (cut_at red.kw j)) }
    {
        std::array::from_fn(|j| self.kw[j] - red.kw[j])
    }
}

impl Cuts {
    // The sum of five cuts. That of the potentials is the room, 25.5's denominator.
    fn total(self) -> Cut
        ensures { result.0 ≡ of_five (cut_at self.kw) }
    {
        let [en, reg, r1, r2, r3] = self.kw;
        Cut(en.0 + reg.0 + r1.0 + r2.0 + r3.0)
    }
}

impl Reduction {
    // None where REDtot exceeds the room.
    pub fn of(potred: Cuts, redtot: Cut) -> Option<Reduction>
        ensures { MatchOption result (of_five (cut_at potred.kw) < redtot.0) (λ r. (r.potred ≡ potred) × (r.redtot ≡ redtot)) }
    {
        if potred.total().0 < redtot.0 {
            return None;
        }
        Some(Reduction { potred, redtot })
    }

    // POTRED × REDtot / room for each schedule, rounded down, or 0 if the room is 0.
    fn floors(self) -> [Cut; 5]
        ensures { result ≡ cut_five (floor_of (cut_at self.potred.kw) self.redtot.0) }
    {
        let room = self.potred.total().0;
        let redtot = self.redtot.0;
        std::array::from_fn(|j| Cut(
            (self.potred.kw[j].0 * redtot)
                .checked_div(room)
                .unwrap_or(0),
        ))
    }

    // The fraction of a kilowatt that each loses by the rounding, times the room: 7000 in a room of 10000 is 0.7 kW.
    fn remainders(self) -> [Cut; 5]
        ensures { result ≡ cut_five (remainder (cut_at self.potred.kw) self.redtot.0) }
    {
        let room = self.potred.total().0;
        let redtot = self.redtot.0;
        std::array::from_fn(|j| Cut(
            (self.potred.kw[j].0 * redtot)
                .checked_rem(room)
                .unwrap_or(0),
        ))
    }

    // REDen, REDreg and the three REDres by 25.5's formula, each rounded down; the kilowatts that this leaves of REDtot are handed out in rounds. 25.5
    // has no rounding: both are rules of the house.
    pub fn shares(self) -> Cuts
        ensures { result.kw ≡ cut_five (share (cut_at self.potred.kw) self.redtot.0) }
    {
        let rounded = Cuts { kw: self.floors() };
        let left = Cut(self.redtot.0 - rounded.total().0);
        Cuts {
            kw: hand_out(rounded, self.remainders(), left),
        }
    }
}

// Which schedule has the largest remainder not yet served; of equal ones the first, in the order energy, regulation, r1, r2, r3.
fn largest(rem: [Cut; 5], served: [bool; 5]) -> usize
    requires { of_five (λ j. one (served_at served j)) < 5 }
    ensures { (result < 5) × (is_largest (cut_at rem) (served_at served) result ≡ true) }
{
    // The search begins at energy. Where that is served, the first schedule that is not replaces it.
    let mut found = 0;
    for j in 1..5 {
        // One that is equal and stands later replaces nothing.
        let larger = rem[j].0 > rem[found].0;
        if !served[j] & (served[found] | larger) {
            found = j;
        }
    }
    found
}

// Hands the left-over kilowatts out in as many rounds: each adds one to the cut with the largest remainder not yet served. Five fractions of
// a kilowatt come to less than 5, so there are four rounds at most.
fn hand_out(rounded: Cuts, rem: [Cut; 5], left: Cut) -> [Cut; 5]
    requires { left.0 ≤ 4 }
    ensures { result ≡ cut_five (λ j. cut_at rounded.kw j + one (served_in (cut_at rem) left.0 j)) }
{
    let mut red = rounded.kw;
    let mut served = [false; 5];
    for _ in 0..left.0 {
        let next = largest(rem, served);
        red[next].0 += 1;
        served[next] = true;
    }
    red
}
