// `line`: settles the day of an internal controllable line from standard input. It prints a line for each hour and then the total, or a refused
// header's refusal alone. Given any argument, such as a sheet's name, it settles nothing and says on standard error how it is used.
#![tactic(auto)]

ghost use Rattle.intake.specs.Intake.{PIECES, TakenIn};
ghost use Rattle.printed.specs.Printed.{line_text};

use program::Settles;
use std::io::Stdin;

const USAGE: [&[u8]; 3] = [
    b"line takes no argument. It reads a line's day on standard input: line < SHEET\n",
    b"It prints hour=H pay=C or hour=H refused=R at=L for each hour, then total=C.\n",
    b"Read on: docs/sheet.md for the sheet, docs/answers.md for what is printed.\n",
];

struct Line;

impl Settles for Line {
    ghost taken = { λ old new n. TakenIn old PIECES 1 new n };

    ghost printed = { line_text };

    fn take_in(stdin: Stdin, store: &mut [u8]) -> usize {
        input::take_line(stdin, store)
    }

    fn put(text: &[u8], page: &mut [u8]) -> usize {
        printed::line_text(text, page)
    }
}

fn main(rt: HostRuntime) {
    if program::say_usage(&rt, &mut rt.stderr(), &USAGE).is_some() {
        return;
    }
    let mut store = [0u8; intake::DAY];
    let mut page = [0u8; printed::LONGEST];
    let _ = program::settle::<Line, _>(rt.stdin(), &mut rt.stdout(), &mut store, &mut page);
}
