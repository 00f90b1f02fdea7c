// The words of the settlement: units, curves, an hour's record, and what a call gives back. The rules themselves stand in
// specs/, a file for each section of document 01.
#![tactic(auto)]

ghost use Rattle.std.specs.Prelude.{◌≡◌};
ghost use Rattle.tariff.specs.Reply.{number_of, place_of};

mod sums;

// Power in whole kilowatts. Withdrawal is negative.
#[derive(Clone, Copy, Default, PartialEq, Eq, PartialOrd, Ord)]
pub struct Kw(pub i64);

// Cents per MWh.
#[derive(Clone, Copy, Default, PartialEq, Eq, PartialOrd, Ord)]
pub struct Price(pub i64);

// Cents per MW, the price of regulation movement.
#[derive(Clone, Copy, Default, PartialEq, Eq, PartialOrd, Ord)]
pub struct MovePrice(pub i64);

#[derive(Clone, Copy, Default, PartialEq, Eq, PartialOrd, Ord)]
pub struct Seconds(pub i64);

// 1/3,600,000 cent: one kilowatt at one cent per MWh for one second.
#[derive(Clone, Copy, PartialEq, Eq, PartialOrd, Ord)]
pub struct Grains(pub i64);

#[derive(Clone, Copy, PartialEq, Eq, PartialOrd, Ord)]
pub struct Cents(pub i64);

// A bid curve: from `start` on, `n` steps, each up to its end `to` at its price `at`.
#[derive(Clone, Copy)]
pub struct Curve {
    pub start: Kw,
    pub n: usize,
    pub to: [Kw; 12],
    pub at: [Price; 12],
}

// Line 1 of a block: day-ahead schedules, and the bids of the last four.
#[derive(Clone, Copy)]
pub struct DayAhead {
    pub en: Kw,
    pub reg: Kw,
    pub r1: Kw,
    pub r2: Kw,
    pub r3: Kw,
    pub breg: Price,
    pub b1: Price,
    pub b2: Price,
    pub b3: Price,
}

// An interval line. It may leave out two powers, as `-`: the upper operating limit `uol`, which then derates nothing, and the economic
// operating point `eop`, which is then worked out from the real-time curve.
#[derive(Clone, Copy, Default)]
pub struct Interval {
    pub s: Seconds,
    pub en: Kw,
    pub ae: Kw,
    pub co: Kw,
    pub eop: Option<Kw>,
    pub pen: Price,
    pub lim: Kw,
    pub uol: Option<Kw>,
    pub r1: Kw,
    pub r2: Kw,
    pub r3: Kw,
    pub p1: Price,
    pub p2: Price,
    pub p3: Price,
    pub reg: Kw,
    pub preg: Price,
    pub breg: Price,
    pub mv: Kw,
    pub pmv: MovePrice,
    pub bmv: MovePrice,
}

// The record of an hour block, with whatever numbers its block had: `n` intervals, the first of `iv`.
#[derive(Clone, Copy)]
pub struct Hour {
    pub hour: i64,
    pub ahead: DayAhead,
    pub da: Curve,
    pub rt: Curve,
    pub n: usize,
    pub iv: [Interval; 30],
}

// A day has 24 hours, and 23 or 25 where the clock changes. A text that says no count means the usual one.
pub const USUAL_DAY: usize = 24;

pub const LONGEST_DAY: usize = 25;

pub const USUAL_COUNT: i64 = 24;

// A day's marks: a digit of `cat` for each hour, and the exceptions 25.2.2.1 to 25.2.2.6 as words, hour 0 the lowest bit.
#[derive(Clone, Copy)]
pub struct Marks {
    pub rtc: bool,
    pub cat: [u8; LONGEST_DAY],
    pub x1: u32,
    pub x2: u32,
    pub x3: u32,
    pub x4: u32,
    pub x5: u32,
    pub x6: u32,
}

// How many hours a day has, and its marks.
#[derive(Clone, Copy)]
pub struct MarkedDay {
    pub hours: usize,
    pub marks: Marks,
}

// The hour that a block has to say: any, or its place in a day, and how many hours that day has. An Option would be no plainer: its `None` would have
// to be read as every hour.
#[derive(Clone, Copy)]
pub enum Expected {
    Any,
    Says(i64, usize),
}

// The check that refuses, and its place: a line of the block, or an interval from 1. Four have one place only. Back is request 2's: a day of
// 23 or 25 hours has no form 1. Point is request 7's: no step to work an operating point out from.
#[derive(Clone, Copy, PartialEq, Eq)]
pub enum Check {
    Form(usize),
    Range(usize),
    Order,
    Curve(usize),
    Seconds,
    Derate(usize),
    Reach(usize),
    Room,
    Back,
    Point(usize),
}

// The number of a check in document 01's table, which document 02 continues, and its place.
pub fn number_of(check: Check) -> u64
    ensures { result ≡ number_of check }
{
    match check {
        Check::Form(_) => 1,
        Check::Range(_) => 2,
        Check::Order => 3,
        Check::Curve(_) => 4,
        Check::Seconds => 5,
        Check::Derate(_) => 6,
        Check::Reach(_) => 7,
        Check::Room => 8,
        Check::Back => 9,
        Check::Point(_) => 10,
    }
}

pub fn place_of(check: Check) -> usize
    ensures { result ≡ place_of check }
{
    match check {
        Check::Form(line) => line,
        Check::Range(line) => line,
        Check::Order => 1,
        Check::Curve(line) => line,
        Check::Seconds => 0,
        Check::Derate(interval) => interval,
        Check::Reach(interval) => interval,
        Check::Room => 0,
        Check::Back => 2,
        Check::Point(interval) => interval,
    }
}

// What a call gives back. Document 01 names the form: an enum of its own whose refused case holds a second one, with the check and its place.
#[derive(Clone, Copy)]
pub enum Answer {
    Paid(Grains, Cents),
    Refused(Check),
}

// A line of a curtailed import's block: what 25.6 reads of an interval. `cut` is 1 where the market curtailed the import.
#[derive(Clone, Copy, Default)]
pub struct Curtailed {
    pub s: Seconds,
    pub cut: i64,
    pub prof: Kw,
    pub rten: Kw,
    pub lbmp: Price,
    pub bid: Price,
    pub def: Price,
}

// The record of an import's block: the hour's day-ahead schedule and decremental bid, and `n` intervals, the first of `iv`.
#[derive(Clone, Copy)]
pub struct ImportHour {
    pub hour: i64,
    pub den: Kw,
    pub dec: Price,
    pub n: usize,
    pub iv: [Curtailed; 30],
}

// An interval line of an internal controllable line, an ICL: its real-time schedule, the energy that it injected and withdrew, and the prices at
// its injection and its withdrawal bus.
#[derive(Clone, Copy, Default)]
pub struct IclInterval {
    pub s: Seconds,
    pub en: Kw,
    pub aei: Kw,
    pub aew: Kw,
    pub pin: Price,
    pub pout: Price,
}

// The record of an ICL's hour block: the day-ahead schedules for injection and withdrawal, its two bid curves, and `n` intervals, the
// first of `iv`.
#[derive(Clone, Copy)]
pub struct IclHour {
    pub hour: i64,
    pub dasi: Kw,
    pub dasw: Kw,
    pub da: Curve,
    pub rt: Curve,
    pub n: usize,
    pub iv: [IclInterval; 30],
}

// Where an import is refused: in its first two lines, in the block of an hour, or for bytes behind its last block.
#[derive(Clone, Copy)]
pub enum ImportFault {
    Head(Check),
    Block(usize, Check),
    Surplus,
}

// What the import call gives back: paid, with the import's number, its sum and its cents, or refused. Document 01 names this form too.
#[derive(Clone, Copy)]
pub enum ImportAnswer {
    Paid(i64, Grains, Cents),
    Refused(ImportFault),
}
