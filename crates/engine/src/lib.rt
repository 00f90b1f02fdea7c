// The hour call: a record of an hour in, an answer out, a lent row written or left alone. Of a generator's hour, and of an internal
// controllable line's.
#![tactic(auto)]

ghost use Rattle.std.specs.Prelude.{◌≡◌, length};
ghost use Rattle.tariff.specs.Reply.{told};
ghost use Rattle.tariff.specs.Hour.{reply, row_after};
ghost use Rattle.tariff.specs.Controllable.{icl_reply, icl_row_after};

use tariff::{Answer, Expected, Hour, IclHour};

// Settles an hour: paid, with its sum and cents and the contributions at the front of `row`, or refused, with `row` as it was.
// Any values in any field are judged: nothing is asked of the caller.
pub fn settle(h: Hour, excluded: bool, expected: Expected, row: &mut [i64]) -> Answer
    ensures reply { told result ≡ reply h excluded expected (length row.old) }
    ensures row { row.new ≡ row_after h excluded expected row.old }
{
    let n = h.n;
    let c = intervals::work_out(h, excluded, expected);
    let found = c.found;
    if let Err(check) = found {
        return Answer::Refused(check);
    }
    let parts = c.parts;
    lent::pay(parts, n, c.sum, row)
}

// Settles an hour of an internal controllable line in the same way.
pub fn settle_icl(h: IclHour, excluded: bool, expected: Expected, row: &mut [i64]) -> Answer
    ensures reply { told result ≡ icl_reply h excluded expected (length row.old) }
    ensures row { row.new ≡ icl_row_after h excluded expected row.old }
{
    let n = h.n;
    let c = intervals::work_out_icl(h, excluded, expected);
    let found = c.found;
    if let Err(check) = found {
        return Answer::Refused(check);
    }
    let parts = c.parts;
    lent::pay(parts, n, c.sum, row)
}
