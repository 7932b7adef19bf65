//! Where the rows stand, by ascending document ids.
ghost use Rattle.std.specs.Prelude.{◌≡◌, ◌+◌, ◌<◌, ◌≤◌, ℕ, [], ◌∷◌, ◌++◌, IfOk, is_some, map};
ghost use Rattle.std.specs.Option.{option_copied, option_map};
ghost use Rattle.std.specs.HashMap.{spare};
ghost use Rattle.fts_types.specs.Row.{row_of};
ghost use Rattle.fts_rows.specs.Rows.{row_with_id, without_id};
ghost use Rattle.fts_rows.specs.Slots.{AreSlots, rows_in};

use fts_types::{DocId, Row};
use indexmap::IndexMap;
use std::alloc::{AllocError, Global};

/// For each document id that was given its row, or none where it was taken out, by ascending ids.
pub(crate) type Slots = IndexMap<DocId, Option<Row>>;

/// The row with the id.
pub(crate) fn row_at(slots: &Slots, doc: DocId) -> Option<&Row>
    ensures { (high : ℕ) → AreSlots 0 high slots.now.entries
        → option_map row_of (option_copied result)
        ≡ row_with_id doc (rows_in slots.now.entries) }
{
    match slots.get(&doc) {
        Some(slot) => slot.as_ref(),
        None => None,
    }
}

/// Puts a row behind the others.
pub(crate) fn push_row(slots: &mut Slots, row: Row)
    requires room { 0 < spare slots.old }
    ensures kept { (high : ℕ) → AreSlots 0 high slots.old.entries → high < row.doc
        → AreSlots 0 row.doc slots.new.entries }
    ensures rows { (high : ℕ) → AreSlots 0 high slots.old.entries → high < row.doc
        → rows_in slots.new.entries ≡ rows_in slots.old.entries ++ row_of row ∷ [] }
    ensures room { spare slots.old ≤ spare slots.new + 1 }
{
    match slots.insert(row.doc, Some(row)) {
        Ok(_) => {}
        Err(_) => unreachable!(),
    }
}

/// Takes the row with the id out.
pub(crate) fn take_row(slots: &mut Slots, doc: DocId) -> Option<Row>
    ensures row { (high : ℕ) → AreSlots 0 high slots.old.entries
        → option_map row_of result ≡ row_with_id doc (rows_in slots.old.entries) }
    ensures kept { (high : ℕ) → AreSlots 0 high slots.old.entries
        → AreSlots 0 high slots.new.entries }
    ensures rows { (high : ℕ) → AreSlots 0 high slots.old.entries
        → rows_in slots.new.entries ≡ without_id doc (rows_in slots.old.entries) }
    ensures room { spare slots.old ≤ spare slots.new }
{
    match slots.get_mut(&doc) {
        Some(slot) => slot.take(),
        None => None,
    }
}

/// Gives up the slots without a row. It takes no memory, and time for each slot.
pub(crate) fn compact(slots: &mut Slots)
    ensures kept { (high : ℕ) → AreSlots 0 high slots.old.entries
        → AreSlots 0 high slots.new.entries }
    ensures rows { rows_in slots.new.entries ≡ rows_in slots.old.entries }
    ensures room { spare slots.old ≤ spare slots.new }
{
    slots.retain(
        |_doc: &DocId, slot: &mut Option<Row>| -> bool
            ensures stays { slot.new ≡ slot.old }
            ensures full { result ≡ is_some slot.old }
        { slot.is_some() },
    );
}

/// The rows in the slots, by ascending ids.
pub(crate) fn rows_of_slots(alloc: Global, slots: Slots) -> Result<Vec<Row>, AllocError>
    ensures { IfOk result (λ rows. map row_of rows.items ≡ rows_in slots.entries) }
{
    let mut rows = Vec::new(alloc);
    for (_doc, slot) in slots {
        if let Some(row) = slot {
            rows.push(row)?;
        }
    }
    Ok(rows)
}
