// `up`: moves a stored sheet from standard input up from form 1 to form 2. It writes the moved sheet and nothing else to standard output; a refusal goes to
// standard error, and then standard output stays empty. Given any argument, such as a sheet's name, it moves nothing and says on standard error how
// it is used.
#![tactic(auto)]

use archive::Way;

const USAGE: [&[u8]; 3] = [
    b"up takes no argument. It reads a stored sheet on standard input: up < SHEET > MOVED\n",
    b"It writes the sheet in form 2, or refused=R at=L on standard error.\n",
    b"Read on: docs/sheet.md for the sheet, docs/answers.md for a refusal.\n",
];

fn main(rt: HostRuntime) {
    if program::say_usage(&rt, &mut rt.stderr(), &USAGE).is_some() {
        return;
    }
    let _ = passing::pass_sheet(&rt, Way::Up);
}
