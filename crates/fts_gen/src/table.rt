ghost use Rattle.std.specs.Prelude.{◌≡◌, ◌≤◌, length, IfOk};
ghost use Rattle.std.specs.List.{flat_map};
ghost use Rattle.fts_gen.specs.Script.{spelled, names_of};
ghost use Rattle.fts_gen.specs.Script.{insert_line, update_line, delete_line, search_line};

use fts_types::Names;
use itoa::Buffer;
use std::alloc::{AllocError, Global};

/// One text behind another.
pub fn joined(alloc: Global, pieces: &[&[u8]]) -> Result<Vec<u8>, AllocError>
    ensures { IfOk result (λ text. text.items ≡ flat_map (λ p. p.now) pieces.now) }
{
    let mut text = Vec::new(alloc);
    for piece in pieces {
        text.extend_from_slice(piece)?;
    }
    Ok(text)
}

/// How statements name the text columns of a table.
#[derive(Drop)]
pub struct Table {
    /// The name of the first one.
    pub first: Vec<u8>,
    /// Those of the others, each behind a comma.
    pub others: Vec<u8>,
    /// An empty text for each of the others.
    pub empties: Vec<u8>,
}

impl Table {
    /// A table of these columns, of which there are some.
    pub fn new(alloc: Global, columns: &Names) -> Result<Table, AllocError>
        requires { 1 ≤ length columns.now }
        ensures { IfOk result (λ table. names_of table ≡ spelled columns.now) }
    {
        let first = Vec::from_slice(alloc, columns.text(0))?;
        let mut others = Vec::new(alloc);
        let mut empties = Vec::new(alloc);
        for place in 1..columns.len() {
            others.extend_from_slice(b", ")?;
            others.extend_from_slice(columns.text(place))?;
            empties.extend_from_slice(b", ''")?;
        }
        Ok(Table {
            first,
            others,
            empties,
        })
    }

    /// INSERT of a key, with a text in the first column.
    pub fn insert(&self, alloc: Global, key: u32, text: &[u8]) -> Result<Vec<u8>, AllocError>
        ensures { IfOk result (λ line. line.items
            ≡ insert_line (names_of self.now) key text.now) }
    {
        let mut number = Buffer::new();
        let pieces: [&[u8]; 10] = [
            b"INSERT INTO docs (id, ",
            &self.first,
            &self.others,
            b") VALUES (",
            number.format(key).as_bytes(),
            b", '",
            text,
            b"'",
            &self.empties,
            b")",
        ];
        joined(alloc, &pieces)
    }

    /// UPDATE of the first column.
    pub fn update(&self, alloc: Global, key: u32, text: &[u8]) -> Result<Vec<u8>, AllocError>
        ensures { IfOk result (λ line. line.items
            ≡ update_line (names_of self.now) key text.now) }
    {
        let mut number = Buffer::new();
        let pieces: [&[u8]; 6] = [
            b"UPDATE docs SET ",
            &self.first,
            b" = '",
            text,
            b"' WHERE id = ",
            number.format(key).as_bytes(),
        ];
        joined(alloc, &pieces)
    }

    /// DELETE of a key.
    pub fn delete(&self, alloc: Global, key: u32) -> Result<Vec<u8>, AllocError>
        ensures { IfOk result (λ line. line.items ≡ delete_line key) }
    {
        let mut number = Buffer::new();
        let pieces: [&[u8]; 2] = [
            b"DELETE FROM docs WHERE id = ",
            number.format(key).as_bytes(),
        ];
        joined(alloc, &pieces)
    }

    /// A search for two words without a third.
    pub fn search(&self, alloc: Global, a: &[u8], b: &[u8], c: &[u8]) -> Result<Vec<u8>, AllocError>
        ensures { IfOk result (λ line. line.items
            ≡ search_line (names_of self.now) a.now b.now c.now) }
    {
        let pieces: [&[u8]; 10] = [
            b"SELECT FTS_DOC_ID FROM docs WHERE MATCH (",
            &self.first,
            &self.others,
            b") AGAINST ('+",
            a,
            b" ",
            b,
            b" -",
            c,
            b"' IN BOOLEAN MODE)",
        ];
        joined(alloc, &pieces)
    }
}
