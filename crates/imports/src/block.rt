// An import's block, read into a record: line 1, and up to 30 interval lines.
ghost use Rattle.std.specs.Prelude.{◌≡◌};
ghost use Rattle.imports.specs.Import.{import_block_at};
ghost use Rattle.imports.specs.Read.{import_read_of};

use records::Series;
use tariff::{Curtailed, ImportHour, Kw, Price};

// The block that begins at a place, read up to its first empty line or the text's end; or its first line that is not as printed.
pub fn read_block(s: &[u8], at: usize) -> Result<ImportHour, usize>
    ensures { result ≡ import_read_of (import_block_at s.now at) }
{
    let first = lines::fields_at(s, at, keys::IMPORT_HOUR, 3);
    let line2 = lines::line_end(s, first.next).ok_or(1usize)?;
    let Series { n, iv } = records::series_at::<Curtailed>(s, line2, 2)?;
    Ok(ImportHour {
        hour: first.values[0],
        den: Kw(first.values[1]),
        dec: Price(first.values[2]),
        n,
        iv,
    })
}
