ghost use Rattle.std.specs.Prelude.{◌≡◌, ◌&&◌, ◌||◌, ◌==◌, not, codes, map};
ghost use Rattle.std.specs.List.{list_all};
ghost use Rattle.std.specs.Str.{bytes_eq};
ghost use Rattle.std.specs.Char.{is_ascii_digit, is_ascii_lowercase};
ghost use Rattle.fts_types.specs.Settings.{begins_with_letter, is_column_name};
ghost use Rattle.fts_types.specs.Settings.{are_distinct, are_columns};
ghost use Rattle.fts_words.specs.Order.{is_among};

use crate::texts::Names;

/// Whether a column's name begins as it must: with a lower-case letter.
fn begins_with_letter(name: &[u8]) -> bool
    ensures { result ≡ begins_with_letter name.now }
{
    match name {
        [] => false,
        [first, ..] => first.is_ascii_lowercase(),
    }
}

/// Whether each byte is one that names of columns have: a lower-case letter, a digit or `_`.
fn has_name_bytes(name: &[u8]) -> bool
    ensures { result ≡ list_all (λ b. is_ascii_lowercase b || is_ascii_digit b || (b == 95))
        name.now }
{
    name.iter().all(|&byte| byte.is_ascii_lowercase() || byte.is_ascii_digit() || byte == b'_')
}

/// Whether the name is none that a table has already: `id` for the key and `fts_doc_id` for the
/// document's id.
fn is_free(name: &[u8]) -> bool
    ensures { result ≡ (not (bytes_eq name.now (codes "id")) && not
        (bytes_eq name.now (codes "fts_doc_id"))) }
{
    if name == b"id".as_slice() {
        return false;
    }
    name != b"fts_doc_id".as_slice()
}

/// Whether a column can have this name: 1 to 32 lower-case letters, digits and `_`, a letter first,
/// and neither `id` nor `fts_doc_id`, which name the key and the document's id.
pub fn is_column_name(name: &[u8]) -> bool
    ensures { result ≡ is_column_name name.now }
{
    if name.len() > 32 || !begins_with_letter(name) {
        return false;
    }
    if !has_name_bytes(name) {
        return false;
    }
    is_free(name)
}

/// Whether the name is one of these.
fn is_listed(name: &[u8], names: &[Vec<u8>]) -> bool
    ensures { result ≡ is_among (map (λ v. v.items) names.now) name.now }
{
    match names {
        [] => false,
        [other, rest @ ..] => {
            if other.as_slice() == name {
                return true;
            }
            is_listed(name, rest)
        }
    }
}

/// Whether no name stands twice. There are few, so that a look at each pair is cheap.
fn are_distinct(names: &[Vec<u8>]) -> bool
    ensures { result ≡ are_distinct (map (λ v. v.items) names.now) }
{
    match names {
        [] => true,
        [name, rest @ ..] => {
            if is_listed(name, rest) {
                return false;
            }
            are_distinct(rest)
        }
    }
}

/// Whether each is a name that a column can have.
fn are_names(names: &[Vec<u8>]) -> bool
    ensures { result ≡ list_all is_column_name (map (λ v. v.items) names.now) }
{
    match names {
        [] => true,
        [name, rest @ ..] => {
            if !is_column_name(name) {
                return false;
            }
            are_names(rest)
        }
    }
}

/// Whether a table can have these columns: 1 to 8 distinct names.
pub(crate) fn are_columns(names: &Names) -> bool
    ensures { result ≡ are_columns names.now }
{
    if !matches!(names.len(), 1..=8) || !are_names(names.as_slice()) {
        return false;
    }
    are_distinct(names.as_slice())
}
