//! OPTIMIZE: the steps of a pass.
ghost use Rattle.std.specs.Prelude.{◌≡◌, ◌∷◌, ◌&&◌, ◌<◌, ◌^◌, [], ℕ, List, nat_lt};
ghost use Rattle.fts_types.specs.declared.settings.Settings.{Settings};
ghost use Rattle.fts_steps.specs.Step.{to_optimize, passed};
ghost use Rattle.fts_sessions.specs.Conversation.{asks, begins, leaves_open, words_in};
ghost use Rattle.fts_sessions.specs.Conversation.{unknown_name, optimized as the_optimized};
ghost use Rattle.fts_sessions.specs.Execute.{GoesOn, Optimizes};
ghost use Rattle.fts_sessions.specs.Request.{optimizes};
ghost use Rattle.fts_sessions.specs.Transaction.{Transaction};

use crate::EngineSteps;
use crate::index::not_made;
use crate::names::is_same;
use fts_schema::Reply;
use fts_steps::OptimizeStep;
use fts_types::Text;

/// The steps of an OPTIMIZE, and what tells the last answer. A table that isn't there makes none.
pub fn optimize<S: EngineSteps>(steps: &mut S, table: Text) -> Reply
    ensures { (transaction : Transaction)
        → GoesOn S.sight (S.sight.settings steps.old) transaction (optimizes table) []
        steps.old result steps.new }
{
    match unknown_table(table) {
        Some(reply) => reply,
        None => {
            let most = u64::from(steps.optimize_words());
            make_steps(steps, most)
        }
    }
}

/// One OPTIMIZE of the documents, as a statement makes it where no transaction is open.
pub fn optimize_once<S: EngineSteps>(steps: &mut S) -> Reply
    ensures { Optimizes S.sight steps.old result steps.new }
{
    let most = u64::from(steps.optimize_words());
    make_steps(steps, most)
}

// The refusal of a table that isn't there.
fn unknown_table(table: Text) -> Option<Reply>
    ensures { (columns : List (List ℕ)) → result ≡ unknown_name columns table [] }
{
    if is_same(table.as_slice(), b"docs") {
        return None;
    }
    Some(Reply::NoSuchTable { name: table })
}

// The steps of an OPTIMIZE that works on at most so many words, of which there can be two more.
fn make_steps<S: EngineSteps>(steps: &mut S, most: u64) -> Reply
    requires { most < 2 ^ 16 }
    ensures { (settings : Settings) → (transaction : Transaction) → (table : List ℕ)
        → settings.optimize_words ≡ most
        → begins settings transaction (optimizes table) ≡ asks to_optimize
        → GoesOn S.sight settings transaction (optimizes table) []
        steps.old result steps.new }
{
    let mut words = 0;
    for made in 0..most + 2 {
        let step = match steps.optimize_step() {
            Ok(step) => step,
            Err(error) => return not_made(error),
        };
        words += words_of(step);
        if !may_go_on(step, words, most) {
            return optimized(made + 1, words, step);
        }
    }
    Reply::Optimized {
        words,
        finished: false,
    }
}

// How many words a step worked on.
fn words_of(step: OptimizeStep) -> u64
    ensures { result ≡ words_in (passed step ∷ []) }
{
    match step {
        OptimizeStep::Word => 1,
        OptimizeStep::Began => 0,
        OptimizeStep::Finished => 0,
        OptimizeStep::Nothing => 0,
    }
}

// Whether a step leaves a pass open, and fewer words were made than may be.
fn may_go_on(step: OptimizeStep, words: u64, most: u64) -> bool
    ensures { result ≡ (leaves_open step && nat_lt words most) }
{
    match step {
        OptimizeStep::Began => words < most,
        OptimizeStep::Word => words < most,
        OptimizeStep::Finished => false,
        OptimizeStep::Nothing => false,
    }
}

// What tells an OPTIMIZE of so many steps, so many of them words, that ends with this step.
fn optimized(made: u64, words: u64, step: OptimizeStep) -> Reply
    ensures { result ≡ the_optimized made words step }
{
    match step {
        OptimizeStep::Began => Reply::Optimized {
            words,
            finished: false,
        },
        OptimizeStep::Word => Reply::Optimized {
            words,
            finished: false,
        },
        OptimizeStep::Finished => Reply::Optimized {
            words,
            finished: true,
        },
        OptimizeStep::Nothing => nothing_left(made, words),
    }
}

// What tells an OPTIMIZE that ends since there is nothing to do: that it had nothing to do at all,
// or that another one has finished the pass.
fn nothing_left(made: u64, words: u64) -> Reply
    ensures { result ≡ the_optimized made words OptimizeStep.Nothing }
{
    if made > 1 {
        return Reply::Optimized {
            words,
            finished: true,
        };
    }
    Reply::NothingToOptimize
}
