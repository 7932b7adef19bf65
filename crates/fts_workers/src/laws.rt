//! What the rounds of the workers leave. Each does nothing: its contract is the theorem.
ghost use Rattle.std.specs.Prelude.{◌≡◌, ◌<◌, ◌^◌, ℕ, List, [], length, None, codes};
ghost use Rattle.fts_types.specs.declared.limits.Limits.{Limits};
ghost use Rattle.fts_types.specs.declared.settings.Settings.{Settings};
ghost use Rattle.fts_schema.specs.declared.reply.Reply.{Reply};
ghost use Rattle.fts_sessions.specs.Conversation.{Converses};
ghost use Rattle.fts_sessions.specs.Request.{optimizes};
ghost use Rattle.fts_steps.specs.Running.{Running};
ghost use Rattle.fts_steps.specs.Step.{Call, Follows, AreAlone, after_all};
ghost use Rattle.fts_workers.specs.declared.health.Health.TheVariants.{Sound};
ghost use Rattle.fts_workers.specs.Health.{health_of_steps};
ghost use Rattle.fts_workers.specs.Workers.{SyncRound};
ghost use Rattle.fts_workers.specs.Settled.{NeedsNoBatch, EndsWhole};

/// After a round of the sync worker that met neither want of memory nor a fault, with nobody else,
/// no batch is due.
pub fn rounds_leave_no_batch_due()
    ensures { (limits : Limits) → (running : Running) → (calls : List Call)
        → SyncRound running.state.settings calls → Follows limits running calls → AreAlone calls
        → health_of_steps calls ≡ Sound → length running.state.commits < 2 ^ 62
        → NeedsNoBatch limits (after_all running calls) }
{}

/// An OPTIMIZE that met neither want of memory nor a fault ends whole.
pub fn rounds_end_whole()
    ensures { (settings : Settings) → (limits : Limits) → (running : Running)
        → (calls : List Call) → (reply : Reply)
        → Converses settings None (optimizes (codes "docs")) [] calls reply
        → Follows limits running calls → health_of_steps calls ≡ Sound
        → EndsWhole settings.optimize_words (length calls) reply }
{}
