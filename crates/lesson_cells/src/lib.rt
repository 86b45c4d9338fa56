// Words of the lent buffer.
#![tactic(auto)]

ghost use Rattle.std.specs.Prelude.{◌≡◌, ℕ, ◌+◌, ◌*◌, ◌<◌, get_or, drop};

// The word at `i`, and 0 behind the end: no index is wrong, so that damaged tables can be read too.
pub fn word(t: &[u32], i: usize) -> u32
    ensures { result ≡ get_or t.now i 0 }
{
    t.get(i).copied().unwrap_or(0)
}

// A table among the words, from `base` on, whose entries have WIDTH words each.
#[derive(Clone, Copy, Debug, PartialEq, Eq)]
pub struct Table<const WIDTH: usize> {
    pub base: u32,
}

impl<const WIDTH: usize> Table<WIDTH> {
    // The words from the entry `e` on. No such place is over 64 bits.
    fn from<'a>(self, t: &'a [u32], e: u32) -> &'a [u32]
        requires { WIDTH < 4294967296 }
        ensures { result.now ≡ drop (self.entry.base + WIDTH * e) t.now }
    {
        let at = self.base as usize + WIDTH * e as usize;
        t.get(at..).unwrap_or(&[])
    }

    // The words of the entry `e`.
    pub fn row(self, t: &[u32], e: u32) -> [u32; WIDTH]
        requires { WIDTH < 4294967296 }
        ensures { (k : ℕ) → k < WIDTH → get_or result k 0 ≡ get_or t.now (self.entry.base + WIDTH * e + k) 0 }
    {
        let words = self.from(t, e);
        let mut row = [0; WIDTH];
        // One turn for each word of the entry.
        for (field, cell) in row.iter_mut().enumerate() {
            *cell = word(words, field);
        }
        row
    }
}
