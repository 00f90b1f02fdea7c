// `day`: settles a day. It reads the headers of the day before, its own and the day after, then its blocks, from standard input; one empty line stands for a
// neighbour that is lacking. It prints a line for each hour and then the total, or a refused header's refusal alone, which ends with the header's
// number. Given any argument, such as a sheet's name, it settles nothing and says on standard error how it is used.
#![tactic(auto)]

ghost use Rattle.intake.specs.Intake.{PIECES, TakenIn};
ghost use Rattle.printed.specs.Printed.{day_text};

use program::Settles;
use std::io::Stdin;

const USAGE: [&[u8]; 3] = [
    b"day takes no argument. It reads on standard input the headers of the day before, its own and the day after, then its blocks: day < INPUT\n",
    b"It prints hour=H pay=C or hour=H refused=R at=L for each hour, then total=C; or of a refused header refused=R at=L header=N.\n",
    b"Read on: docs/sheet.md for the input, docs/answers.md for what is printed.\n",
];

struct Day;

impl Settles for Day {
    ghost taken = { λ old new n. TakenIn old PIECES 3 new n };

    ghost printed = { day_text };

    fn take_in(stdin: Stdin, store: &mut [u8]) -> usize {
        input::take_day(stdin, store)
    }

    fn put(text: &[u8], page: &mut [u8]) -> usize {
        printed::day_text(text, page)
    }
}

fn main(rt: HostRuntime) {
    if program::say_usage(&rt, &mut rt.stderr(), &USAGE).is_some() {
        return;
    }
    let mut store = [0u8; intake::DAY];
    let mut page = [0u8; printed::LONGEST];
    let _ = program::settle::<Day, _>(rt.stdin(), &mut rt.stdout(), &mut store, &mut page);
}
