ghost use Rattle.std.specs.Prelude.{◌≡◌, ◌<◌, ◌≤◌, ◌∷◌, [], length, IfOk, IsErr, IfSome, IfNone};
ghost use Rattle.fts_gen.specs.Script.{script_lines, lines_left, decided, last_draw, names_of};

use crate::draws::{drawn_text, drawn_word, next_draw};
use crate::table::Table;
use fts_types::Settings;
use std::alloc::{AllocError, Global};

/// A script, line by line.
#[derive(Drop)]
pub struct ScriptLines {
    alloc: Global,
    /// The table that its statements are about.
    pub(crate) table: Table,
    /// The last number that was drawn.
    pub(crate) draw: u32,
    /// How many statements were made.
    pub(crate) made: u32,
    /// How many there are to be.
    pub(crate) count: u32,
    /// Whether the next line makes a batch.
    pub(crate) sync: bool,
    /// Whether it makes a pass, or that behind it does.
    pub(crate) optimize: bool,
}

/// The script of `seed`: `count` statements about a table with these settings, which has columns.
/// It keeps a copy of their names. Want of memory is the only refusal.
pub fn script(
    alloc: Global,
    settings: &Settings,
    seed: u16,
    count: u32,
) -> Result<ScriptLines, AllocError>
    requires { 1 ≤ length settings.now.columns }
    ensures { IfOk result (λ made. lines_left made ≡ script_lines settings.now.columns seed count) }
{
    Ok(ScriptLines {
        alloc,
        table: Table::new(alloc, &settings.columns)?,
        draw: u32::from(seed),
        made: 0,
        count,
        sync: false,
        optimize: false,
    })
}

impl ScriptLines {
    /// The next line, without its end, or nothing behind the last. After want of memory, the only
    /// refusal, the line is still to come.
    pub fn next_line(&mut self) -> Result<Option<Vec<u8>>, AllocError>
        ensures line { IfOk result (λ next. IfSome next
            (λ line. lines_left self.old ≡ line.items ∷ lines_left self.new)) }
        ensures end { IfOk result (λ next. IfNone next
            ((lines_left self.old ≡ []) × (self.new ≡ self.old))) }
        ensures refused { IsErr result → self.new ≡ self.old }
    {
        if self.sync {
            let line = Vec::from_slice(self.alloc, b"SYNC")?;
            self.sync = false;
            return Ok(Some(line));
        }
        if self.optimize {
            let line = Vec::from_slice(self.alloc, b"OPTIMIZE TABLE docs")?;
            self.optimize = false;
            return Ok(Some(line));
        }
        if self.made >= self.count {
            return Ok(None);
        }
        let number = self.made + 1;
        let (line, draw) = self.statement(number, next_draw(self.draw))?;
        self.draw = draw;
        self.made = number;
        self.sync = number % 100 == 0;
        self.optimize = number % 250 == 0;
        Ok(Some(line))
    }

    // Statement `number` by the draw that decides it, and its last draw.
    fn statement(&self, number: u32, draw: u32) -> Result<(Vec<u8>, u32), AllocError>
        requires { 0 < number }
        ensures { IfOk result (λ made.
            (made.0.items ≡ decided (names_of self.now.table) number draw)
            × (made.1 ≡ last_draw draw)) }
    {
        let kind = draw % 8;
        if kind < 5 {
            let (text, last) = drawn_text(self.alloc, draw)?;
            return Ok((self.table.insert(self.alloc, number, &text)?, last));
        }
        let first = next_draw(draw);
        if kind == 5 {
            let (text, last) = drawn_text(self.alloc, first)?;
            let key = 1 + first % number;
            return Ok((self.table.update(self.alloc, key, &text)?, last));
        }
        if kind == 6 {
            return Ok((self.table.delete(self.alloc, 1 + first % number)?, first));
        }
        let second = next_draw(first);
        let third = next_draw(second);
        let line = self.table.search(
            self.alloc,
            drawn_word(first),
            drawn_word(second),
            drawn_word(third),
        )?;
        Ok((line, third))
    }
}
