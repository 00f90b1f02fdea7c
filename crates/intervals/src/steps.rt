// What passes between the steps of an hour's settlement, inside this crate.
use tariff::{Check, Grains, Kw};

// How far the scan of a curve's steps has come: the next kilowatt to be priced, and what those before it cost.
#[derive(Clone, Copy)]
pub struct Run {
    pub at: Kw,
    pub cost: Grains,
}

// The first fault of an interval, or nothing and each interval's contribution.
#[derive(Clone, Copy)]
pub struct Walked {
    pub found: Result<(), Check>,
    pub parts: [Grains; 30],
}
