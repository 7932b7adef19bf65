ghost use Rattle.std.specs.Prelude.{◌≡◌, ℕ, List};
ghost use Rattle.fts_sql.specs.Token.{IsFront, is_blank};
ghost use Rattle.fts_sql.specs.Reading.{is_in};

/// A class of bytes.
#[derive(Clone, Copy)]
pub enum Class {
    /// White space: space, tab and CR.
    Blank,
    /// What names are made of: letters, digits and `_`.
    Word,
    /// Decimal digits.
    Digit,
}

impl Class {
    fn has(self, b: u8) -> bool
        ensures { result ≡ is_in self b }
    {
        match self {
            Class::Blank => b == b' ' || b == b'\t' || b == b'\r',
            Class::Word => b.is_ascii_alphanumeric() || b == b'_',
            Class::Digit => b.is_ascii_digit(),
        }
    }
}

/// The widest front whose bytes are in the class, and the rest.
pub fn split_run(class: Class, bytes: &[u8]) -> (&[u8], &[u8])
    ensures { IsFront (is_in class) bytes.now result.0.now result.1.now }
{
    for (i, b) in bytes.iter().enumerate() {
        if !class.has(*b) {
            return bytes.split_at(i);
        }
    }
    bytes.split_at(bytes.len())
}

/// What follows the blanks at the front.
pub fn skip_blanks(bytes: &[u8]) -> &[u8]
    ensures { (blanks : List ℕ) × IsFront is_blank bytes.now blanks result.now }
{
    split_run(Class::Blank, bytes).1
}
