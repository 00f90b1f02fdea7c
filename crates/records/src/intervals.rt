// The interval lines of an hour block, of an import's block, and of an internal controllable line's block.
ghost use Rattle.std.proofs.Common.{rules};
ghost use Rattle.tariff.specs.Hour.{blank};
ghost use Rattle.tariff.specs.Import.{blank_curtailed};
ghost use Rattle.tariff.specs.Controllable.{blank_icl};
ghost use Rattle.keys.specs.Keys.{INTERVAL, CURTAILED, ICL_INTERVAL};
ghost use Rattle.records.specs.Laws.{interval_laws, curtailed_laws, icl_interval_laws};
ghost use Rattle.records.specs.Records.{interval_of, curtailed_of, icl_interval_of};

use crate::{IntervalLine, maybe_of};
use tariff::{Curtailed, IclInterval, Interval, Kw, MovePrice, Price, Seconds};

impl IntervalLine for Interval {
    const FIRST: usize = keys::INTERVAL;

    const FIELDS: usize = 20;

    ghost FIRST = { INTERVAL };

    ghost FIELDS = { 20 };

    ghost of = { interval_of };

    ghost blank = { blank };

    ghost laws = { interval_laws };

    ghost default_is_blank = { Prim.search rules };

    ghost fits = { Prim.search rules };

    fn of(values: [i64; 20]) -> Interval {
        Interval {
            s: Seconds(values[0]),
            en: Kw(values[1]),
            ae: Kw(values[2]),
            co: Kw(values[3]),
            eop: maybe_of(values[4]),
            pen: Price(values[5]),
            lim: Kw(values[6]),
            uol: maybe_of(values[7]),
            r1: Kw(values[8]),
            r2: Kw(values[9]),
            r3: Kw(values[10]),
            p1: Price(values[11]),
            p2: Price(values[12]),
            p3: Price(values[13]),
            reg: Kw(values[14]),
            preg: Price(values[15]),
            breg: Price(values[16]),
            mv: Kw(values[17]),
            pmv: MovePrice(values[18]),
            bmv: MovePrice(values[19]),
        }
    }
}

impl IntervalLine for Curtailed {
    const FIRST: usize = keys::CURTAILED;

    const FIELDS: usize = 7;

    ghost FIRST = { CURTAILED };

    ghost FIELDS = { 7 };

    ghost of = { curtailed_of };

    ghost blank = { blank_curtailed };

    ghost laws = { curtailed_laws };

    ghost default_is_blank = { Prim.search rules };

    ghost fits = { Prim.search rules };

    fn of(values: [i64; 20]) -> Curtailed {
        Curtailed {
            s: Seconds(values[0]),
            cut: values[1],
            prof: Kw(values[2]),
            rten: Kw(values[3]),
            lbmp: Price(values[4]),
            bid: Price(values[5]),
            def: Price(values[6]),
        }
    }
}

impl IntervalLine for IclInterval {
    const FIRST: usize = keys::ICL_INTERVAL;

    const FIELDS: usize = 6;

    ghost FIRST = { ICL_INTERVAL };

    ghost FIELDS = { 6 };

    ghost of = { icl_interval_of };

    ghost blank = { blank_icl };

    ghost laws = { icl_interval_laws };

    ghost default_is_blank = { Prim.search rules };

    ghost fits = { Prim.search rules };

    fn of(values: [i64; 20]) -> IclInterval {
        IclInterval {
            s: Seconds(values[0]),
            en: Kw(values[1]),
            aei: Kw(values[2]),
            aew: Kw(values[3]),
            pin: Price(values[4]),
            pout: Price(values[5]),
        }
    }
}
