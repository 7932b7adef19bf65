//! Rows, written line by line.
ghost use Rattle.std.specs.Prelude.{◌≡◌, ◌+◌, ◌∷◌, ◌++◌, [], decimal, OnOk, IfOk};
ghost use Rattle.fts_schema.specs.Listing.{lines, closing, key_row, position_row};
ghost use Rattle.fts_schema.specs.Rows.{Puts};

use itoa::Buffer;
use std::alloc::{AllocError, Global};

/// Rows of one table.
#[derive(Drop)]
pub struct RowLines {
    /// Their lines, behind that of the columns' names.
    pub text: Vec<u8>,
    /// How many rows there are.
    pub count: u64,
}

impl RowLines {
    /// No row yet: the line of the columns' names alone.
    pub fn begun(alloc: Global, header: &str) -> Result<RowLines, AllocError>
        ensures text { IfOk result (λ rows. rows.text.items ≡ header.now ++ 10 ∷ []) }
        ensures count { IfOk result (λ rows. rows.count ≡ 0) }
    {
        let mut text = Vec::from_slice(alloc, header.as_bytes())?;
        text.push(b'\n')?;
        Ok(RowLines { text, count: 0 })
    }

    /// Writes a row.
    pub fn put(&mut self, row: &[u8]) -> Result<(), AllocError>
        ensures { OnOk result (Puts self.old self.new (row.now ∷ [])) }
    {
        self.text.extend_from_slice(row)?;
        self.end_row()
    }

    /// Writes the row of a key with its value.
    pub fn put_key(&mut self, key: &str, value: &[u8]) -> Result<(), AllocError>
        ensures { OnOk result (Puts self.old self.new (key_row key.now value.now ∷ [])) }
    {
        self.text.extend_from_slice(key.as_bytes())?;
        self.text.push(b'|')?;
        self.text.extend_from_slice(value)?;
        self.end_row()
    }

    /// Writes the row of a key whose value is a number.
    pub fn put_number(&mut self, key: &str, value: u64) -> Result<(), AllocError>
        ensures { OnOk result (Puts self.old self.new (key_row key.now (decimal value) ∷ [])) }
    {
        self.put_key(key, Buffer::new().format(value).as_bytes())
    }

    /// Writes the row of an id.
    pub fn put_id(&mut self, id: u64) -> Result<(), AllocError>
        ensures { OnOk result (Puts self.old self.new (decimal id ∷ [])) }
    {
        self.put(Buffer::new().format(id).as_bytes())
    }

    /// Writes the row of a position, behind what the rows of its group begin with.
    pub fn put_position(&mut self, front: &[u8], id: u64, position: u64) -> Result<(), AllocError>
        ensures { OnOk result (Puts self.old self.new (position_row front.now id position ∷ [])) }
    {
        self.text.extend_from_slice(front)?;
        push_field(&mut self.text, id)?;
        push_number(&mut self.text, position)?;
        self.end_row()
    }

    /// The text of the rows, with the line that tells their number.
    pub fn closed(self, number: u64) -> Result<Vec<u8>, AllocError>
        ensures { IfOk result
            (λ text. text.items ≡ self.text.items ++ closing self.count number) }
    {
        let RowLines { mut text, count } = self;
        push_closing(&mut text, count, number)?;
        Ok(text)
    }

    // Ends the line of a row. More rows than can be counted have no room in memory.
    fn end_row(&mut self) -> Result<(), AllocError>
        ensures text { OnOk result (self.new.text.items ≡ self.old.text.items ++ 10 ∷ []) }
        ensures count { OnOk result (self.new.count ≡ self.old.count + 1) }
    {
        let Some(count) = self.count.checked_add(1) else {
            return Err(AllocError);
        };
        self.text.push(b'\n')?;
        self.count = count;
        Ok(())
    }
}

/// Writes the line that tells how many rows there are.
fn push_closing(text: &mut Vec<u8>, count: u64, number: u64) -> Result<(), AllocError>
    ensures { OnOk result (text.new.items ≡ text.old.items ++ closing count number) }
{
    text.extend_from_slice(b"OK ")?;
    push_number(text, count)?;
    text.extend_from_slice(b" rows as of ")?;
    push_number(text, number)?;
    text.push(b'\n')?;
    Ok(())
}

/// Writes a number.
fn push_number(text: &mut Vec<u8>, number: u64) -> Result<(), AllocError>
    ensures { OnOk result (text.new.items ≡ text.old.items ++ decimal number) }
{
    text.extend_from_slice(Buffer::new().format(number).as_bytes())
}

/// Writes a number as a field, with the bar behind it.
pub fn push_field(text: &mut Vec<u8>, number: u64) -> Result<(), AllocError>
    ensures { OnOk result (text.new.items ≡ text.old.items ++ (decimal number ++ 124 ∷ [])) }
{
    push_number(text, number)?;
    text.push(b'|')?;
    Ok(())
}
