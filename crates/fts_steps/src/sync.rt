/// What a batch did.
#[derive(Clone, Copy, Debug, PartialEq, Eq)]
pub enum SyncBatch {
    /// The words of more commits are in the tables: of the first `through`, of `commits` in all.
    Flushed { through: u64, commits: u64 },
    /// The words of all `commits` commits were in the tables already.
    Nothing { commits: u64 },
}
