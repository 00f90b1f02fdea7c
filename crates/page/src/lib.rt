// Bytes and numbers into a lent page, one behind the other. What the page has no room for is left out.
#![tactic(auto, using(crate::proofs::Pages::pages, crate::proofs::Numerals::numerals))]

ghost use Rattle.std.specs.Prelude.{◌≡◌};
ghost use Rattle.page.specs.Page.{wrote};
ghost use Rattle.page.specs.Numerals.{counted, valued};

// The lent bytes, and the place behind what was written.
#[derive(Drop)]
pub struct Page<'a> {
    pub bytes: &'a mut [u8],
    pub at: usize,
}

impl<'a> Page<'a> {
    pub fn new(bytes: &'a mut [u8]) -> Page<'a>
        ensures { result ≡ record { bytes = bytes.entry; at = 0 } }
    {
        Page { bytes, at: 0 }
    }

    pub fn put(&mut self, text: &[u8])
        ensures { self.new ≡ wrote self.old text.now }
    {
        if self.at < self.bytes.len() {
            let n = text.len().min(self.bytes.len() - self.at);
            let end = self.at + n;
            self.bytes[self.at..end].copy_from_slice(&text[..n]);
            self.at = end;
        }
    }

    pub fn put_count(&mut self, key: &[u8], n: u64)
        ensures { self.new ≡ wrote self.old (counted key.now n) }
    {
        self.put(key);
        let mut digits = [0u8; 20];
        let k = io::decimal(n, &mut digits);
        self.put(&digits[..k]);
    }

    pub fn put_signed(&mut self, key: &[u8], v: i64)
        ensures { self.new ≡ wrote self.old (valued key.now v) }
    {
        self.put(key);
        let sign: &[u8] = if v < 0 { b"-" } else { b"" };
        self.put_count(sign, units::magnitude(v));
    }
}
