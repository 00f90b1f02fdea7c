// What the programs share. None takes an argument: one that is given any says on standard error how it is used, and does nothing else. Those
// that settle a text take it in, and write what is printed of it.
#![tactic(auto)]

ghost use Rattle.std.specs.Prelude.{◌≡◌, ℕ, List, length, take, min, is_some, OnOk};
ghost use Rattle.std.specs.Io.KnownBytes.{Appends};
ghost use Rattle.io.specs.Counts.{IsPrefixLen};
ghost use Rattle.page.specs.Page.{written};
ghost use Rattle.program.specs.Usage.{Said, is_there, usage_text};

use std::env::{Env, FillError};
use std::io;
use std::io::{Stdin, Write};

// Whether the look for an argument found one. An argument that is longer than the room for it stands there too.
fn is_there(found: Result<usize, FillError>) -> bool
    ensures { result ≡ is_there found }
{
    !matches!(found, Err(FillError::NotPresent))
}

// Writes line after line, also behind one that could not be written. The answer is the first failure, if there was any.
fn write_lines<W: Write>(to: &mut W, lines: &[&[u8]]) -> io::Result<()>
    ensures { OnOk result (Appends (W.contents to.old) (W.contents to.new) (usage_text lines.now)) }
{
    let mut all = Ok(());
    for line in lines {
        all = all.and(to.write_all(line));
    }
    all
}

// Says how a program is used if an argument was found, and answers what came of saying it.
fn say_if_there<W: Write>(
    found: Result<usize, FillError>,
    to: &mut W,
    usage: &[&[u8]],
) -> Option<io::Result<()>>
    ensures there { is_some result ≡ is_there found }
    ensures said { Said result (W.contents to.old) (W.contents to.new) (usage_text usage.now) }
{
    if is_there(found) {
        Some(write_lines(to, usage))
    } else {
        None
    }
}

// Says how a program is used if an argument stands behind its own name, and answers what came of saying it. If none does, nothing is written,
// and the answer is `None`.
pub fn say_usage<W: Write>(rt: &HostRuntime, to: &mut W, usage: &[&[u8]]) -> Option<io::Result<()>>
    ensures { Said result (W.contents to.old) (W.contents to.new) (usage_text usage.now) }
{
    say_if_there(rt.arg(1, &mut []), to, usage)
}

// A program that settles a text: how it takes the text in, and what it prints of it.
pub trait Settles {
    // What holds of a store before and behind `take_in`, and of the number that it answered.
    ghost taken: { List ℕ → List ℕ → ℕ → Type 0 };

    // What is printed of a text.
    ghost printed: { List ℕ → List ℕ };

    // Takes a text in to the front of the store, and answers how many bytes of it are kept there.
    fn take_in(stdin: Stdin, store: &mut [u8]) -> usize
        ensures within { IsPrefixLen result store.new }
        ensures taken { taken store.old store.new result };

    // Puts what is printed of a text onto the front of the page, as far as the page reaches, and answers how many bytes that is.
    fn put(text: &[u8], page: &mut [u8]) -> usize
        ensures text { page.new ≡ written page.old 0 (printed text.now) }
        ensures count { result ≡ min (length (printed text.now)) (length page.old) }
        ensures within { IsPrefixLen result page.new };
}

// Takes a text in and writes what is printed of what is kept of it, as far as the page reaches.
#[tactic(auto, using(crate::proofs::Shown::shown))]
pub fn settle<S: Settles, W: Write>(
    stdin: Stdin,
    to: &mut W,
    store: &mut [u8],
    page: &mut [u8],
) -> io::Result<()>
    ensures { OnOk result ((n : ℕ) × S.taken store.old store.new n
        × Appends (W.contents to.old) (W.contents to.new) (take (length page.old) (S.printed (take n store.new)))) }
{
    let n = S::take_in(stdin, store);
    let m = S::put(&store[..n], page);
    to.write_all(&page[..m])
}
