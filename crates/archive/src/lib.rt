// The archive, up and back: a stored sheet of form 1 becomes one of form 2, and back. Only the lines in front of `unit` are rewritten; the
// blocks are not looked at.
#![tactic(auto, using(page::proofs::Pages::pages, page::proofs::Pages::lent, std::proofs::lemmas::List::drop_all))]

ghost use Rattle.std.specs.Prelude.{◌≡◌, drop};
ghost use Rattle.io.specs.Counts.{IsPrefixLen};
ghost use Rattle.tariff.specs.Reply.{shown};
ghost use Rattle.page.specs.Page.{Put, wrote};
ghost use Rattle.archive.specs.Move.{goes, fits, moved, move_fault, moved_text};
ghost use Rattle.archive.specs.Told.{is_form, fault_by};

use page::Page;
use tariff::Check;

// Up from form 1 to form 2, or back down.
#[derive(Clone, Copy)]
pub enum Way {
    Up,
    Down,
}

// What refuses a sheet, or nothing where it moves; `n` bytes were written.
#[derive(Clone, Copy)]
pub struct Moved {
    pub found: Result<(), Check>,
    pub n: usize,
}

// Whether a check found a line that is not as printed: FORM, which is number 1.
fn is_form(found: Result<(), Check>) -> bool
    ensures { result ≡ is_form (shown found) }
{
    match found {
        Ok(()) => false,
        Err(check) => tariff::number_of(check) == 1,
    }
}

// Whether a sheet, which is of form 2 or not, goes this way.
fn goes_way(way: Way, two: bool) -> bool
    ensures { result ≡ goes way two }
{
    match way {
        Way::Up => !two,
        Way::Down => two,
    }
}

// Whether the other form has days of so many hours.
fn fits_form(way: Way, hours: usize) -> bool
    ensures { result ≡ fits way hours }
{
    match way {
        Way::Up => true,
        Way::Down => hours == tariff::USUAL_DAY,
    }
}

// What refuses a sheet, by what its header's checks found: the way comes behind FORM and in front of RANGE.
fn fault_by(way: Way, header: Result<(), Check>, two: bool, hours: usize) -> Result<(), Check>
    ensures { shown result ≡ fault_by way (shown header) two hours }
{
    if is_form(header) {
        return header;
    }
    if !goes_way(way, two) {
        return Err(Check::Range(1));
    }
    if let Err(_) = header {
        return header;
    }
    if !fits_form(way, hours) {
        return Err(Check::Back);
    }
    Ok(())
}

// What refuses a sheet that is to go this way.
fn fault_of(sheet: &[u8], way: Way) -> Result<(), Check>
    ensures { shown result ≡ move_fault way sheet.now }
{
    let header = header::read_header(sheet);
    let found = header.found;
    fault_by(way, found, header::is_form2(sheet), header.hours)
}

// The sheet's bytes from a place on, as they are.
fn put_rest(page: &mut Page, sheet: &[u8], from: usize)
    ensures { page.new ≡ wrote page.old (drop from sheet.now) }
{
    if let Some(rest) = sheet.get(from..) {
        page.put(rest);
    }
}

// The other form's first lines, and what stands behind the sheet's own: 7 bytes in form 1, 16 in form 2.
#[tactic(auto, using(page::proofs::Pages::pages), unfolding(crate::specs::Move::moved))]
fn put_moved(page: &mut Page, sheet: &[u8], way: Way)
    ensures { page.new ≡ wrote page.old (moved way sheet.now) }
{
    match way {
        Way::Up => {
            page.put(b"form=2\nhours=24\n");
            put_rest(page, sheet, 7);
        }
        Way::Down => {
            page.put(b"form=1\n");
            put_rest(page, sheet, 16);
        }
    }
}

// Moves a sheet onto the lent page. Any bytes are judged. On a refusal nothing is written; a page that is too short gets the moved sheet's
// beginning.
pub fn move_sheet(sheet: &[u8], way: Way, page: &mut [u8]) -> Moved
    ensures found { shown result.found ≡ move_fault way sheet.now }
    ensures text { Put page.old 0 (moved_text way sheet.now) page.new result.n }
    ensures within { IsPrefixLen result.n page.new }
{
    let found = fault_of(sheet, way);
    let mut page = Page::new(page);
    if found.is_ok() {
        put_moved(&mut page, sheet, way);
    }
    Moved { found, n: page.at }
}
