use fts_types::Settings;

/// What the words of a command line ask for.
#[derive(Debug, Drop)]
pub enum Command {
    /// A new database.
    Create {
        /// What is fixed for good when the database is made.
        settings: Settings,
    },
    /// The statements of the standard input.
    Run,
    /// The statements of the standard input, each session in a thread of its own.
    Serve,
    /// The statements of a script that is made from a number.
    Gen {
        /// The number.
        seed: u16,
        /// How many statements, at most 1,000,000.
        count: u32,
    },
}
