// `import`: settles a curtailed import's day from standard input. It prints the payment, or the refusal with its hour. Given any argument,
// such as a text's name, it settles nothing and says on standard error how it is used.
#![tactic(auto)]

ghost use Rattle.intake.specs.Intake.{PIECES, TakenIn};
ghost use Rattle.printed.specs.Printed.{import_text};

use program::Settles;
use std::io::Stdin;

const USAGE: [&[u8]; 3] = [
    b"import takes no argument. It reads an import on standard input: import < TEXT\n",
    b"It prints import=N pay=C, or refused=R hour=H at=L.\n",
    b"Read on: docs/sheet.md for the text, docs/answers.md for what is printed.\n",
];

struct Import;

impl Settles for Import {
    ghost taken = { λ old new n. TakenIn old PIECES 0 new n };

    ghost printed = { import_text };

    fn take_in(stdin: Stdin, store: &mut [u8]) -> usize {
        input::take_import(stdin, store)
    }

    fn put(text: &[u8], page: &mut [u8]) -> usize {
        printed::import_text(text, page)
    }
}

fn main(rt: HostRuntime) {
    if program::say_usage(&rt, &mut rt.stderr(), &USAGE).is_some() {
        return;
    }
    let mut store = [0u8; intake::DAY];
    let mut page = [0u8; printed::LONGEST];
    let _ = program::settle::<Import, _>(rt.stdin(), &mut rt.stdout(), &mut store, &mut page);
}
