// The interval lines of a block, up to 30, each read into its record.
ghost use Rattle.std.specs.Prelude.{◌≡◌, ℕ, ℤ, pos, get_or};
ghost use Rattle.records.specs.Laws.{LineLaws};
ghost use Rattle.records.specs.Told.{SeriesFitsInMemory, series_read_at};

// A record that an interval line says. What stands in an array past a block's last interval is its default.
pub trait IntervalLine: Copy + Default {
    // The number of the line's first key, and how many fields it has.
    const FIRST: usize;

    const FIELDS: usize;

    ghost FIRST: { ℕ };

    ghost FIELDS: { ℕ };

    ghost of: { (ℕ → ℤ) → Self };

    ghost blank: { Self };

    fn of(values: [i64; 20]) -> Self
        ensures { result ≡ of (λ n. get_or values n (pos 0)) };

    ghost laws: { LineLaws FIRST FIELDS of };

    ghost default_is_blank: { (r : Self) → Self.is_default r → r ≡ blank };

    ghost fits: { SeriesFitsInMemory Self.row };
}

// The interval lines of a block: the first `n` of `iv`.
#[derive(Clone, Copy)]
pub struct Series<R> {
    pub n: usize,
    pub iv: [R; 30],
}

// Up to 30 interval lines, and the end of the block; or the first line that is not as printed. The first of them is line `line` of its block.
pub fn series_at<R: IntervalLine>(s: &[u8], at: usize, line: u8) -> Result<Series<R>, usize>
    ensures { result ≡ series_read_at R.FIRST R.FIELDS R.of R.blank line s.now at }
{
    let first = usize::from(line);
    let mut iv = [R::default(); 30];
    let mut i = at;
    for n in 0..30 {
        if lines::is_closed(s, i) {
            return Ok(Series { n, iv });
        }
        let fields = lines::fields_at(s, i, R::FIRST, R::FIELDS);
        i = lines::line_end(s, fields.next).ok_or(n + first)?;
        iv[n] = R::of(fields.values);
    }
    if lines::is_closed(s, i) {
        Ok(Series { n: 30, iv })
    } else {
        Err(30 + first)
    }
}
