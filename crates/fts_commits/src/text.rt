ghost use Rattle.std.specs.Prelude.{◌≡◌};
ghost use Rattle.fts_commits.specs.Text.{is_text_byte};

/// Whether a text may hold this byte: printable ASCII and tab.
pub fn is_text_byte(byte: u8) -> bool
    ensures { result ≡ is_text_byte byte }
{
    byte == b'\t' || (byte >= 32 && byte < 127)
}
