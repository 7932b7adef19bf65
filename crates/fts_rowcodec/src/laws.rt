//! Where bytes are at fault.
ghost use Rattle.std.specs.Prelude.{◌≡◌, ℕ, List};
ghost use Rattle.fts_rowcodec.specs.Grammar.{IsCommitFault, IsSettingsFault};

/// Bytes that are no payload are at fault at one place. It does nothing: its contract is the
/// theorem.
pub fn faults_have_one_place()
    ensures commits { (columns : ℕ) (bytes : List ℕ) (a b : ℕ)
        → IsCommitFault columns bytes a → IsCommitFault columns bytes b → a ≡ b }
    ensures settings { (bytes : List ℕ) (a b : ℕ)
        → IsSettingsFault bytes a → IsSettingsFault bytes b → a ≡ b }
{}
