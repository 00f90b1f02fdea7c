// `hour`: settles one hour block from standard input, taken as eligible and without check 3. Given any argument, such as a block's
// name, it settles nothing and says on standard error how it is used.
#![tactic(auto)]

ghost use Rattle.std.specs.Prelude.{◌≡◌, false, ℕ, ◌+◌, ◌<◌, ◌≤◌, length, take};
ghost use Rattle.io.specs.Counts.{IsPrefixLen};
ghost use Rattle.lines.specs.Line.{ends_empty};
ghost use Rattle.printed.specs.Printed.{hour_text};

use program::Settles;
use std::io::{Read, Stdin};

// Reads on behind the first n bytes: two at once where the last of them is no line feed, since no empty line can end sooner, and else one.
// Answers how many came, 0 at the end of the input.
fn read_on(mut stdin: Stdin, text: &mut [u8], n: usize) -> usize
    requires { n < length text.old }
    ensures room { n + result ≤ length text.new }
    ensures front { take n text.new ≡ take n text.old }
    ensures between { (m : ℕ) → n < m → m < n + result → ends_empty text.new m ≡ false }
{
    let most = if n == 0 || text.len() - n < 2 || text[n - 1] == 10 {
        1
    } else {
        2
    };
    stdin.read(&mut text[n..n + most]).unwrap_or(0)
}

// Reads on to the close of a block of which `last` is the last byte that was taken, or to the end of the input, and drops what it reads.
// Nothing says that an input ends, so the turns are counted up to a number that no run reaches.
fn drop_rest(stdin: Stdin, last: u8) {
    let mut rest = [last; 3];
    for _ in 0..u64::MAX {
        let got = read_on(stdin, &mut rest, 1);
        if got == 0 || lines::is_whole(&rest, got + 1) {
            return;
        }
        rest[0] = rest[got];
    }
}

// Reads a block to its close or to the end of the input, as much of it to the text as there is room for: no block that is as printed is
// longer than the store of `main`, and no later byte changes the answer. In front of the last byte taken no block has ended, so nothing
// behind the closing empty line is taken; and `read_on` asks for no byte that it does not take.
#[tactic(auto, using(lines::proofs::Whole::none_ends, lines::proofs::Whole::none_ended))]
fn read_text(stdin: Stdin, text: &mut [u8]) -> usize
    ensures within { IsPrefixLen result text.new }
    ensures unended { (m : ℕ) → m < result → ends_empty text.new m ≡ false }
{
    let mut n = 0;
    while n < text.len() {
        let got = read_on(stdin, text, n);
        n += got;
        if got == 0 || lines::is_whole(text, n) {
            return n;
        }
    }
    if n > 0 {
        drop_rest(stdin, text[n - 1]);
    }
    n
}

const USAGE: [&[u8]; 3] = [
    b"hour takes no argument. It reads an hour block on standard input: hour < BLOCK\n",
    b"It prints i=I grains=G for each interval, then hour=H pay=C; or refused=R at=L.\n",
    b"Read on: docs/sheet.md for the block, docs/answers.md for what is printed.\n",
];

struct Hour;

impl Settles for Hour {
    ghost taken = { λ old new n. (m : ℕ) → m < n → ends_empty new m ≡ false };

    ghost printed = { hour_text };

    fn take_in(stdin: Stdin, store: &mut [u8]) -> usize {
        read_text(stdin, store)
    }

    fn put(text: &[u8], page: &mut [u8]) -> usize {
        printed::hour_text(text, page)
    }
}

fn main(rt: HostRuntime) {
    if program::say_usage(&rt, &mut rt.stderr(), &USAGE).is_some() {
        return;
    }
    let mut store = [0u8; lines::PIECE];
    let mut page = [0u8; printed::LONGEST];
    let _ = program::settle::<Hour, _>(rt.stdin(), &mut rt.stdout(), &mut store, &mut page);
}
