// The first two lines of an import: `import=N cts=C`, which ` hours=H` may end, and an empty line.
ghost use Rattle.std.specs.Prelude.{◌≡◌, ◌&&◌};
ghost use Rattle.tariff.specs.Sheet.{is_count, is_mark, is_name};
ghost use Rattle.imports.specs.Read.{line_read, HeadRead};

use tariff::Check;

// What line 1 says, and the place behind it.
#[derive(Clone, Copy)]
pub struct FirstLine {
    pub name: i64,
    pub cts: i64,
    pub count: i64,
    pub next: usize,
}

// What both say: the import's number, whether it is a CTS one, how many hours its day has, and the place behind them.
#[derive(Clone, Copy)]
pub struct Head {
    pub name: i64,
    pub cts: i64,
    pub hours: usize,
    pub next: usize,
}

pub fn in_range(name: i64, cts: i64, count: i64) -> bool
    ensures { result ≡ (is_name name && is_mark cts && is_count count) }
{
    (1..=9999999).contains(&name) && (0..=1).contains(&cts) && ranges::is_count(count)
}

// Three pairs, or else two.
pub fn read_line(s: &[u8]) -> Option<FirstLine>
    ensures { result ≡ line_read s.now }
{
    let three = lines::fields_at(s, 0, keys::IMPORT, 3);
    if let Some(next) = lines::line_end(s, three.next) {
        return Some(FirstLine {
            name: three.values[0],
            cts: three.values[1],
            count: three.values[2],
            next,
        });
    }
    let two = lines::fields_at(s, 0, keys::IMPORT, 2);
    let next = lines::line_end(s, two.next)?;
    Some(FirstLine {
        name: two.values[0],
        cts: two.values[1],
        count: tariff::USUAL_COUNT,
        next,
    })
}

pub fn read_head(s: &[u8]) -> Result<Head, Check>
    ensures { HeadRead s.now result }
{
    let line = read_line(s).ok_or(Check::Form(1))?;
    let next = lines::line_end(s, Some(line.next)).ok_or(Check::Form(2))?;
    if !in_range(line.name, line.cts, line.count) {
        return Err(Check::Range(1));
    }
    Ok(Head {
        name: line.name,
        cts: line.cts,
        hours: ranges::hours_by(line.count),
        next,
    })
}
