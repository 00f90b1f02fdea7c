// Standard input to standard output: a stored sheet that moves up or back. Its header is judged first; then what was read is written, and what
// follows is copied as it comes.
#![tactic(auto, using(page::proofs::Pages::lent))]

ghost use Rattle.passing.specs.Passed.{Passed};

use archive::Way;
use page::Page;
use std::io::{Read, Stderr, Stdin, Stdout};
use tariff::Check;

// Room for the front of a sheet with the line that moving up adds.
const MOVED: usize = intake::FRONT + 9;

// Copies what follows as it comes, up to the end of the input or to a write that fails. Nothing says that an input ends, so the turns are counted
// up to a number that no run reaches. `std::io::copy` moves 8,192 bytes in a turn, and would take twice as long for a long sheet.
fn copy_rest(mut stdin: Stdin, stdout: Stdout) {
    let mut chunk = io::large_buffer();
    for _ in 0..u64::MAX {
        let n = stdin.read(&mut chunk).unwrap_or(0);
        if n == 0 || stdout.write_all(&chunk[..n]).is_err() {
            return;
        }
    }
}

// Writes a refusal to standard error.
fn say(stderr: Stderr, found: Result<(), Check>) {
    let mut line = io::buffer();
    let mut page = Page::new(&mut line);
    answers::put_found(&mut page, found);
    let n = page.at;
    let _ = stderr.write_all(&line[..n]);
}

// Moves the sheet on standard input, at the pace at which it comes, and answers what refuses it. On a refusal nothing is written to standard
// output, and the refusal to standard error.
#[tactic(auto, using(crate::proofs::Decided::passed))]
pub fn pass_sheet(rt: &HostRuntime, way: Way) -> Result<(), Check>
    ensures { Passed way result }
{
    let mut front = [0u8; intake::FRONT];
    let taken = intake::take_front(rt.stdin(), &mut front);
    let mut page = [0u8; MOVED];
    let moved = archive::move_sheet(&front[..taken.n], way, &mut page);
    say(rt.stderr(), moved.found);
    let is_written = rt.stdout().write_all(&page[..moved.n]).is_ok();
    if is_written && moved.n > 0 && !taken.ended {
        copy_rest(rt.stdin(), rt.stdout());
    }
    moved.found
}
