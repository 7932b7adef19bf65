ghost use Rattle.std.specs.Prelude.{◌≡◌, ◌<◌, ◌≤◌, ℕ, List, slice_index};
ghost use Rattle.std.specs.declared.cmp.Ordering.TheVariants.{Less};
ghost use Rattle.fts_words.specs.Order.{byte_order};
ghost use Rattle.fts_types.specs.Table.{table_of};

/// The number of the table, 1 to 6, that holds a word: the index is kept in six tables by the
/// words' first bytes.
///
/// | Table | First byte |
/// |---|---|
/// | 1 | a digit or `_`, and each byte that no other table has |
/// | 2 to 6 | `a` to `e`, `f` to `j`, `k` to `o`, `p` to `t`, `u` to `z` |
pub fn partition_of(word: &[u8]) -> u8
    ensures { result ≡ table_of word.now }
{
    match word.first() {
        Some(b'a'..=b'e') => 2,
        Some(b'f'..=b'j') => 3,
        Some(b'k'..=b'o') => 4,
        Some(b'p'..=b't') => 5,
        Some(b'u'..=b'z') => 6,
        _ => 1,
    }
}

/// In byte order the number of a word's table never falls, up to the words that begin with `z`:
/// digits and `_` stand before the letters. What begins with a later byte is in the first table.
pub fn tables_rise()
    ensures rise { (word next : List ℕ) → byte_order word next ≡ Less
        → slice_index next 0 ≤ 122 → table_of word ≤ table_of next }
    ensures behind { (word : List ℕ) → 122 < slice_index word 0 → table_of word ≡ 1 }
{}
