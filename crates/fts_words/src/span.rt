ghost use Rattle.std.specs.Prelude.{◌≡◌, ◌-◌, ◌≤◌, ◌↔◌, length, IsTrue};

/// A part of a text: its bytes from `from` up to `to`, without the one at `to`. Places count from
/// 0.
#[derive(Clone, Copy, Debug, PartialEq, Eq)]
pub struct Span {
    pub from: usize,
    pub to: usize,
}

impl Span {
    ghost use Rattle.fts_words.specs.RawWords.{bytes_of};

    /// How many bytes it has.
    pub fn len(&self) -> usize
        requires { self.now.from ≤ self.now.to }
        ensures { result ≡ self.now.to - self.now.from }
    {
        self.to - self.from
    }

    /// Whether it has no byte.
    pub fn is_empty(&self) -> bool
        ensures { IsTrue result ↔ (self.now.to ≤ self.now.from) }
    {
        self.to <= self.from
    }

    /// Its bytes in the text.
    pub fn of<'a>(&self, text: &'a [u8]) -> &'a [u8]
        requires order { self.now.from ≤ self.now.to }
        requires within { self.now.to ≤ length text.now }
        ensures { result.now ≡ bytes_of text.now self.now }
    {
        &text[self.from..self.to]
    }
}
