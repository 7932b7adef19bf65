//! What holds of each OPTIMIZE and of each SYNC.
ghost use Rattle.std.specs.Prelude.{◌≡◌, ◌+◌, ◌≤◌, Bool, ℕ, List, [], length};
ghost use Rattle.fts_io.specs.Text.{Line};
ghost use Rattle.fts_types.specs.declared.limits.Limits.{Limits};
ghost use Rattle.fts_types.specs.declared.settings.Settings.{Settings};
ghost use Rattle.fts_schema.specs.declared.reply.Reply.{Reply};
ghost use Rattle.fts_steps.specs.Running.{Running};
ghost use Rattle.fts_steps.specs.Step.{Call, Follows};
ghost use Rattle.fts_sessions.specs.Request.{optimizes};
ghost use Rattle.fts_sessions.specs.Transaction.{Transaction};
ghost use Rattle.fts_sessions.specs.Conversation.{Converses, words_in};
ghost use Rattle.fts_sessions.specs.Execute.{Says};
ghost use Rattle.fts_sessions.specs.Laws.{answers_of};

/// An OPTIMIZE works on at most as many words as the settings say, and makes at most two steps
/// more. It does nothing: its contract is the theorem.
pub fn passes_are_bounded()
    ensures { (settings : Settings) → (transaction : Transaction) → (table : List ℕ)
        → (calls : List Call) → (reply : Reply) → 1 ≤ settings.optimize_words
        → Converses settings transaction (optimizes table) [] calls reply
        → (words_in (answers_of calls) ≤ settings.optimize_words)
        × (length calls ≤ settings.optimize_words + 2) }
{}

/// What an OPTIMIZE is told counts the words that it worked on. It does nothing: its contract is
/// the theorem.
pub fn passes_are_counted()
    ensures { (settings : Settings) → (transaction : Transaction) → (table : List ℕ)
        → (calls : List Call) → (words : ℕ) → (finished : Bool)
        → Converses settings transaction (optimizes table) [] calls
        (Reply.Optimized words finished)
        → words ≡ words_in (answers_of calls) }
{}

/// A SYNC is told that at least the commits are flushed that were there at its begin, however many
/// others make meanwhile. It does nothing: its contract is the theorem.
pub fn syncs_flush_what_was_there()
    ensures { (settings : Settings) → (limits : Limits) → (running : Running) → (line : Line)
        → (transaction : Transaction) → (calls : List Call) → (through : ℕ)
        → (left : Transaction) → Follows limits running calls
        → Says settings line transaction calls (Reply.Synced through) left
        → length running.state.commits ≤ through }
{}
