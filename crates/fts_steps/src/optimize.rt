/// What a step of OPTIMIZE did.
#[derive(Clone, Copy, Debug, PartialEq, Eq)]
pub enum OptimizeStep {
    /// A pass began, over the ids of DELETED.
    Began,
    /// The next word of the open pass got its nodes anew, without the ids of the pass.
    Word,
    /// No word was left: the ids of the pass left DELETED, and it is closed.
    Finished,
    /// No pass was open, DELETED was empty, and packing would have changed no word's nodes.
    Nothing,
}
