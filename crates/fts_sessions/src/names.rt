ghost use Rattle.std.specs.Prelude.{◌≡◌, ◌<◌, ◌+◌, ◌∷◌, [], length, drop, codes, slice_index_or};
ghost use Rattle.std.specs.Prelude.{Some, None, IfSome, IfNone};
ghost use Rattle.std.specs.List.{list_any};
ghost use Rattle.std.specs.Str.{str_eq_ignore_ascii_case};
ghost use Rattle.fts_sessions.specs.Table.{is_known as is_known_name};
ghost use Rattle.fts_sessions.specs.Table.{first_unknown as the_first_unknown, are_names};

use fts_types::Names;

/// Whether two names are the same, case apart.
pub fn is_same(name: &[u8], other: &[u8]) -> bool
    ensures { result ≡ str_eq_ignore_ascii_case name.now other.now }
{
    name.eq_ignore_ascii_case(other)
}

/// The place of the first name, from 0, that no column of the table has.
pub fn first_unknown(columns: &Names, names: &Names) -> Option<usize>
    ensures found { IfSome result (λ place. (place < length names.now)
        × (the_first_unknown columns.now names.now ≡ Some (slice_index_or names.now place []))) }
    ensures none { IfNone result (the_first_unknown columns.now names.now ≡ None) }
{
    for place in 0..names.len() {
        if !is_known(columns, names.text(place)) {
            return Some(place);
        }
    }
    None
}

/// Whether the table has a column of this name.
fn is_known(columns: &Names, name: &[u8]) -> bool
    ensures { result ≡ is_known_name columns.now name.now }
{
    if is_same(name, b"id") {
        return true;
    }
    if is_same(name, b"fts_doc_id") {
        return true;
    }
    is_listed(columns, name)
}

/// Whether a text column has this name.
pub fn is_listed(columns: &Names, name: &[u8]) -> bool
    ensures { result ≡ list_any (λ column. str_eq_ignore_ascii_case name.now column) columns.now }
{
    for place in 0..columns.len() {
        if is_same(name, columns.text(place)) {
            return true;
        }
    }
    false
}

/// Whether the names from a place on are those of all text columns, in the order in which they were
/// created.
fn are_columns(columns: &Names, names: &Names, from: usize) -> bool
    requires { length names.now ≡ length columns.now + from }
    ensures { result ≡ are_names columns.now (drop from names.now) }
{
    for place in from..names.len() {
        if !is_same(names.text(place), columns.text(place - from)) {
            return false;
        }
    }
    true
}

/// Whether the names are those of all text columns, in the order in which they were created.
pub fn are_text_columns(columns: &Names, names: &Names) -> bool
    ensures { result ≡ are_names columns.now names.now }
{
    if names.len() != columns.len() {
        return false;
    }
    are_columns(columns, names, 0)
}

/// Whether the names are `id` and those of all text columns, in the order in which they were
/// created.
pub fn are_insert_columns(columns: &Names, names: &Names) -> bool
    ensures { result ≡ are_names (codes "id" ∷ columns.now) names.now }
{
    if names.is_empty() {
        return false;
    }
    if names.len() - 1 != columns.len() {
        return false;
    }
    if !is_same(names.text(0), b"id") {
        return false;
    }
    are_columns(columns, names, 1)
}

/// Whether the names are `id`, `FTS_DOC_ID` and those of all text columns, in the order in which
/// they were created.
pub fn are_numbered_columns(columns: &Names, names: &Names) -> bool
    ensures { result ≡ are_names (codes "id" ∷ codes "fts_doc_id" ∷ columns.now) names.now }
{
    if names.len() < 2 {
        return false;
    }
    if names.len() - 2 != columns.len() {
        return false;
    }
    if !is_same(names.text(0), b"id") {
        return false;
    }
    if !is_same(names.text(1), b"fts_doc_id") {
        return false;
    }
    are_columns(columns, names, 2)
}
