ghost use Rattle.std.specs.Prelude.{◌≡◌, IfOk};
ghost use Rattle.fts_words.specs.Byte.{lowered};

use std::alloc::{AllocError, Global};

/// The bytes of a word or a text with their ASCII letters lowered. The only refusal is for want of
/// memory.
pub fn lowered(alloc: Global, text: &[u8]) -> Result<Vec<u8>, AllocError>
    ensures { IfOk result (λ lower. lower.items ≡ lowered text.now) }
{
    text.to_ascii_lowercase(alloc)
}
