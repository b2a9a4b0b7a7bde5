//! Lines and words of bytes.

ghost use Rattle.std.specs.Prelude.{◌≡◌, true, ◌++◌, ◌∷◌, MatchOption};
ghost use Rattle.std.specs.Str.{bytes_eq};
ghost use Rattle.vd_outline.specs.Lines.{lacks, is_line};

/// What stands before the first byte of this value, and what stands behind it; none where no byte has it.
pub fn cut_at(bytes: &[u8], separator: u8) -> Option<(&[u8], &[u8])>
    ensures { MatchOption result (lacks separator bytes.now ≡ true) (λ cut. (bytes.now ≡ cut.0.now ++ separator ∷ cut.1.now) × (lacks separator cut.0.now ≡ true)) }
{
    for (at, byte) in bytes.iter().enumerate() {
        if *byte == separator {
            return Some((&bytes[..at], &bytes[at + 1..]));
        }
    }
    None
}

/// Whether all bytes are printable.
pub(crate) fn is_line(bytes: &[u8]) -> bool
    ensures { result ≡ is_line bytes.now }
{
    bytes.iter().all(|byte| *byte >= 32 && *byte <= 126)
}

/// Whether the bytes are those of a word.
pub(crate) fn is(bytes: &[u8], word: &[u8]) -> bool
    ensures { result ≡ bytes_eq bytes.now word.now }
{
    bytes == word
}
