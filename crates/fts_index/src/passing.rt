//! The steps of OPTIMIZE.
ghost use Rattle.std.specs.Prelude.{◌≡◌, ◌↔◌, true, false, List, IsTrue, IfOk};
ghost use Rattle.fts_commits.specs.Turn.{Turn};
ghost use Rattle.fts_ilist.specs.Spelling.{Posting};
ghost use Rattle.fts_words.specs.Indexed.{Rules};
ghost use Rattle.fts_entries.specs.Entry.{IndexState, worked, after_entry};
ghost use Rattle.fts_aux.specs.Tables as tables;
ghost use Rattle.fts_aux.specs.Words.{IsNext};
ghost use Rattle.std.specs.Option.{unwrap_or};
ghost use Rattle.std.specs.Prelude.{[]};
ghost use Rattle.fts_entries.specs.Pass.{IsStep};
ghost use Rattle.fts_index.specs.Index.{Represents};
ghost use Rattle.fts_index.specs.Parts.{HasSame};
ghost use Rattle.fts_index.specs.Passing.{step_entry, FitsStep, FitsPlanned, PlansStep};
ghost use Rattle.fts_index.specs.Passing.{HasPackedNodes, ArePacked};

use crate::index::Index;
use crate::restore::RestoreError;
use fts_ilist::{NodeList, NodeRef, NodeSlice, lists_have_one_spelling};
use fts_lists::DeleteList;
use fts_optimize::rework;
use fts_types::Word;
use std::alloc::AllocError;

/// A step of OPTIMIZE, with the room for it.
#[derive(Drop)]
pub enum PassPlan {
    /// A pass begins, over the ids of DELETED.
    Begin,
    /// The next word of the open pass gets these nodes, and none where it has no documents left.
    Word { word: Word, nodes: NodeList },
    /// The ids of the open pass leave DELETED, and it is closed.
    Finish,
}

/// The begin of a pass, with room for its ids, where there is work for one.
fn plan_begin(index: &mut Index) -> Result<Option<PassPlan>, AllocError>
    requires { index.old.lists.is_open ≡ false }
    ensures planned { IfOk result (λ plan. (rules : Rules) (turns : List Turn) (s : IndexState)
        → Represents rules turns s index.old → PlansStep s plan) }
    ensures fits { IfOk result (FitsPlanned index.new) }
    ensures packed { IfOk result ArePacked }
    ensures same { HasSame index.old index.new }
{
    if index.lists.is_empty(DeleteList::Deleted) {
        if !index.tables.has_loose() {
            return Ok(None);
        }
    }
    let ids = index.lists.len(DeleteList::Deleted);
    index.lists.reserve(DeleteList::BeingDeleted, ids)?;
    Ok(Some(PassPlan::Begin))
}

/// A word of the open pass, with its nodes without the ids of the pass.
fn reworked(index: &Index, word: &Word) -> Result<PassPlan, AllocError>
    requires open { index.now.lists.is_open ≡ true }
    requires next { IsNext (tables.nodes index.now.tables)
        (unwrap_or index.now.lists.checkpoint []) word.now }
    ensures planned { IfOk result (λ plan. (rules : Rules) (turns : List Turn) (s : IndexState)
        → Represents rules turns s index.now → IsStep s (step_entry plan)) }
    ensures fits { IfOk result (FitsStep index.now) }
    ensures packed { IfOk result HasPackedNodes }
{
    let nodes = index.tables.nodes_of(word.as_bytes());
    let nodes = rework(index.alloc, nodes, index.lists.being_deleted())?;
    let word = Word::copied(index.alloc, word.as_bytes())?;
    Ok(PassPlan::Word { word, nodes })
}

/// The next word of the open pass, or its finish where no word is left.
fn plan_next(index: &Index) -> Result<PassPlan, AllocError>
    requires { index.now.lists.is_open ≡ true }
    ensures planned { IfOk result (λ plan. (rules : Rules) (turns : List Turn) (s : IndexState)
        → Represents rules turns s index.now → IsStep s (step_entry plan)) }
    ensures fits { IfOk result (FitsStep index.now) }
    ensures packed { IfOk result HasPackedNodes }
{
    let empty = Word::copied(index.alloc, b"")?;
    let place = match index.lists.checkpoint() {
        Some(word) => word,
        None => &empty,
    };
    match index.tables.next_after(place) {
        Some(word) => reworked(index, word),
        None => Ok(PassPlan::Finish),
    }
}

/// Whether two nodes are the same: they are where their bytes are.
fn is_same_node(node: &NodeRef<'_>, other: &NodeRef<'_>) -> bool
    ensures { IsTrue result ↔ (◌≡◌ {A = List Posting} node.now other.now) }
{
    lists_have_one_spelling();
    node.bytes() == other.bytes()
}

/// Whether nodes are the same.
fn are_same_nodes(nodes: NodeSlice<'_>, others: NodeSlice<'_>) -> bool
    ensures { IsTrue result ↔ (nodes.entry ≡ others.entry) }
{
    let mut nodes = nodes;
    let mut others = others;
    while let Some(node) = nodes.next() {
        match others.next() {
            Some(other) => {
                if !is_same_node(&node, &other) {
                    return false;
                }
            }
            None => return false,
        }
    }
    others.is_empty()
}

/// Whether two steps are the same.
fn is_same(plan: &PassPlan, other: &PassPlan) -> bool
    ensures { IsTrue result ↔ (step_entry plan.now ≡ step_entry other.now) }
{
    match plan {
        PassPlan::Begin => matches!(other, PassPlan::Begin),
        PassPlan::Finish => matches!(other, PassPlan::Finish),
        PassPlan::Word { word, nodes } => match other {
            PassPlan::Word {
                word: second,
                nodes: others,
            } => {
                if word != second {
                    return false;
                }
                are_same_nodes(nodes.as_slice(), others.as_slice())
            }
            _ => false,
        },
    }
}

/// Gives a word of the open pass its nodes.
fn install_word(index: &mut Index, word: Word, nodes: NodeList)
    requires { FitsStep index.old (PassPlan.Word word nodes) }
    ensures { (rules : Rules) (turns : List Turn) (s : IndexState)
        → Represents rules turns s index.old
        → Represents rules turns (after_entry turns s (worked word nodes.nodes)) index.new }
{
    index.tables.install_word(&word, nodes);
    index.lists.set_checkpoint(word);
}

impl Index {
    ghost use Rattle.fts_index.specs.Stands.{StandsFor};
    ghost use Rattle.std.specs.Prelude.{OnOk, IsErr, IsErrOf};
    ghost use Rattle.fts_index.specs.declared.restore.RestoreError.TheVariants.{Bad};

    /// The next step of OPTIMIZE: where no pass is open the begin of one, and else its next word in
    /// byte order, or its finish where no word is left. It is None exactly where no pass is open,
    /// DELETED is empty and packing would change no word's nodes.
    ///
    /// A word costs its own nodes; a begin room for the ids of DELETED; all else constant time.
    /// Where there is no memory, the index has what it had.
    #[tactic(auto, unfolding(crate::specs::Stands::StandsFor))]
    pub fn plan_optimize(&mut self) -> Result<Option<PassPlan>, AllocError>
        ensures planned { IfOk result (λ plan. (rules : Rules) (turns : List Turn)
            (s : IndexState) → StandsFor rules turns s self.old → PlansStep s plan) }
        ensures fits { IfOk result (FitsPlanned self.new) }
        ensures packed { IfOk result ArePacked }
        ensures stays { (rules : Rules) (turns : List Turn) (s : IndexState)
            → StandsFor rules turns s self.old → StandsFor rules turns s self.new }
    {
        if !self.lists.is_open() {
            return plan_begin(self);
        }
        Ok(Some(plan_next(self)?))
    }

    /// Makes the step. It takes no memory. A begin copies the ids of DELETED, a finish costs one
    /// walk over them; a word costs its nodes.
    #[tactic(auto, unfolding(crate::specs::Stands::StandsFor))]
    pub fn install_optimize(&mut self, plan: PassPlan)
        requires { FitsStep self.old plan }
        ensures { (rules : Rules) (turns : List Turn) (s : IndexState)
            → StandsFor rules turns s self.old
            → StandsFor rules turns (after_entry turns s (step_entry plan)) self.new }
    {
        match plan {
            PassPlan::Begin => self.lists.open_pass(),
            PassPlan::Word { word, nodes } => install_word(self, word, nodes),
            PassPlan::Finish => self.lists.close_pass(),
        }
    }

    /// Makes a step that was read from the index log. It is refused where the next step is another
    /// one, or none. Where it is refused, the index has what it had. It costs what the next step
    /// costs.
    pub fn restore_step(&mut self, step: &PassPlan) -> Result<(), RestoreError>
        ensures restored { OnOk result ((rules : Rules) (turns : List Turn) (s : IndexState)
            → StandsFor rules turns s self.old → IsStep s (step_entry step.now)
            × StandsFor rules turns (after_entry turns s (step_entry step.now)) self.new) }
        ensures bad { IsErrOf result Bad → (rules : Rules) (turns : List Turn) (s : IndexState)
            → StandsFor rules turns s self.old → IsStep s (step_entry step.now) → ⊥ }
        ensures stays { IsErr result → (rules : Rules) (turns : List Turn) (s : IndexState)
            → StandsFor rules turns s self.old → StandsFor rules turns s self.new }
    {
        let plan = match self.plan_optimize()? {
            Some(plan) => plan,
            None => return Err(RestoreError::Bad),
        };
        if !is_same(&plan, step) {
            return Err(RestoreError::Bad);
        }
        self.install_optimize(plan);
        Ok(())
    }
}
