/// A line of a script.
#[derive(Debug, Drop)]
pub enum ScriptLine {
    /// Its bytes, without its LF.
    Whole(Vec<u8>),
    /// It is longer than `fts_io::LONGEST_LINE` bytes, and was skipped.
    TooLong,
}

/// The lines of a script, in order.
#[derive(Debug, Drop)]
pub struct Script {
    lines: Vec<ScriptLine>,
}

impl Script {
    ghost use Rattle.std.specs.Prelude.{◌≡◌, map};
    ghost use Rattle.fts_script.specs.Script.{line_of, lines_in};

    /// A script of these lines.
    pub fn new(lines: Vec<ScriptLine>) -> Script
        ensures { lines_in result ≡ map line_of lines.items }
    {
        Script { lines }
    }

    /// Its lines, the first at place 0.
    pub fn lines(&self) -> &[ScriptLine]
        ensures { map line_of result.now ≡ lines_in self.now }
    {
        &self.lines
    }
}
