ghost use Rattle.std.specs.Prelude.{◌≡◌};
ghost use Rattle.std.specs.Str.{str_eq_ignore_ascii_case};
ghost use Rattle.fts_sql.specs.Table.{letters};

/// A keyword.
#[derive(Clone, Copy)]
pub enum Word {
    Against,
    Begin,
    Boolean,
    Commit,
    Delete,
    From,
    FtsDocId,
    Id,
    In,
    Insert,
    Into,
    Match,
    Mode,
    Optimize,
    Rollback,
    Select,
    Set,
    Start,
    Sync,
    Table,
    Transaction,
    Update,
    Values,
    Where,
}

impl Word {
    /// Whether the keyword is written so, in any case.
    pub fn is_written(self, written: &[u8]) -> bool
        ensures { result ≡ str_eq_ignore_ascii_case written.now (letters self) }
    {
        written.eq_ignore_ascii_case(self.letters())
    }

    // The keyword, in lower case.
    fn letters(self) -> &'static [u8]
        ensures { result.now ≡ letters self }
    {
        match self {
            Word::Against => b"against",
            Word::Begin => b"begin",
            Word::Boolean => b"boolean",
            Word::Commit => b"commit",
            Word::Delete => b"delete",
            Word::From => b"from",
            Word::FtsDocId => b"fts_doc_id",
            Word::Id => b"id",
            Word::In => b"in",
            Word::Insert => b"insert",
            Word::Into => b"into",
            Word::Match => b"match",
            Word::Mode => b"mode",
            Word::Optimize => b"optimize",
            Word::Rollback => b"rollback",
            Word::Select => b"select",
            Word::Set => b"set",
            Word::Start => b"start",
            Word::Sync => b"sync",
            Word::Table => b"table",
            Word::Transaction => b"transaction",
            Word::Update => b"update",
            Word::Values => b"values",
            Word::Where => b"where",
        }
    }
}
