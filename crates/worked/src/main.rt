// Document 01's worked hour, and the same hour with a day-ahead curve that ends one kilowatt short, settled and printed.
#![tactic(auto)]

use std::io::Stdout;
use tariff::{Curve, DayAhead, Expected, Hour, Interval, Kw, Price, Seconds};

// Two steps from 0: the minimum generation block, and the rest up to `end`.
fn curve_to(end: i64, price: i64) -> Curve {
    let mut to = [Kw(0); 12];
    let mut at = [Price(0); 12];
    to[0] = Kw(60000);
    at[0] = Price(2000);
    to[1] = Kw(end);
    at[1] = Price(price);
    Curve {
        start: Kw(0),
        n: 2,
        to,
        at,
    }
}

// A quarter of an hour at 50 dollars, with energy alone.
fn quarter(en: i64, ae: i64, co: i64, eop: i64, lim: i64) -> Interval {
    Interval {
        s: Seconds(900),
        en: Kw(en),
        ae: Kw(ae),
        co: Kw(co),
        eop: Some(Kw(eop)),
        pen: Price(5000),
        lim: Kw(lim),
        ..Interval::default()
    }
}

fn hour_14(da_end: i64) -> Hour {
    let ahead = DayAhead {
        en: Kw(100000),
        reg: Kw(0),
        r1: Kw(0),
        r2: Kw(0),
        r3: Kw(0),
        breg: Price(0),
        b1: Price(0),
        b2: Price(0),
        b3: Price(0),
    };
    let mut iv = [quarter(80000, 80000, 0, 90000, 70000); 30];
    iv[1] = quarter(50000, 70000, 3000, 90000, 45000);
    iv[2] = quarter(110000, 110000, 0, 120000, 100000);
    iv[3] = quarter(100000, 95000, 0, 100000, 95000);
    Hour {
        hour: 14,
        ahead,
        da: curve_to(da_end, 3500),
        rt: curve_to(120000, 4000),
        n: 4,
        iv,
    }
}

fn print_hour(stdout: Stdout, h: Hour) {
    let mut grains = [0i64; 4];
    let answer = engine::settle(h, false, Expected::Any, &mut grains);
    let mut page = [0u8; printed::LONGEST];
    let m = printed::answer_text(h.hour, &grains, 4, answer, &mut page);
    let _ = stdout.write_all(&page[..m]);
}

fn main(rt: HostRuntime) {
    print_hour(rt.stdout(), hour_14(100000));
    print_hour(rt.stdout(), hour_14(99999));
}
