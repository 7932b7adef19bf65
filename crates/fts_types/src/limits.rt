ghost use Rattle.std.specs.Prelude.{◌≡◌};

/// How large a database may grow.
#[derive(Clone, Copy, Debug, PartialEq, Eq)]
pub struct Limits {
    /// The most rows after a commit.
    pub rows: u64,
    /// The largest document id.
    pub ids: u64,
    /// The largest end of the rows log, in bytes.
    pub log_bytes: u64,
}

impl Limits {
    ghost use Rattle.fts_types.specs.Limits.{standard_limits};

    /// A million rows, ids to 2^63 − 1, and a log of 2^32 bytes, so that a record's length fits its
    /// four bytes.
    pub fn standard() -> Self
        ensures { result ≡ standard_limits }
    {
        Limits {
            rows: 1_000_000,
            ids: 9_223_372_036_854_775_807,
            log_bytes: 4_294_967_296,
        }
    }
}
