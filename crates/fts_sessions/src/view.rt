ghost use Rattle.std.specs.Prelude.{◌≡◌};
ghost use Rattle.fts_sessions.specs.View.{view_called as the_view_called};
ghost use Rattle.fts_sessions.specs.View.{view_of_schema as the_view_of_schema};

use crate::names::is_same;
use fts_listing::ListingKind;

/// The view of this name of a schema, if there is one.
///
/// Source: MySQL 8.0 Reference Manual, "InnoDB INFORMATION_SCHEMA FULLTEXT Index Tables".
pub fn view_of_schema(schema: &[u8], view: &[u8]) -> Option<ListingKind>
    ensures { result ≡ the_view_of_schema schema.now view.now }
{
    if !is_same(schema, b"information_schema") {
        return None;
    }
    view_called(view)
}

/// The view of `INFORMATION_SCHEMA` that has this name.
fn view_called(name: &[u8]) -> Option<ListingKind>
    ensures { result ≡ the_view_called name.now }
{
    if is_same(name, b"innodb_ft_index_table") {
        return Some(ListingKind::IndexTable);
    }
    if is_same(name, b"innodb_ft_index_cache") {
        return Some(ListingKind::IndexCache);
    }
    if is_same(name, b"innodb_ft_deleted") {
        return Some(ListingKind::Deleted);
    }
    if is_same(name, b"innodb_ft_being_deleted") {
        return Some(ListingKind::BeingDeleted);
    }
    if is_same(name, b"innodb_ft_config") {
        return Some(ListingKind::Config);
    }
    if is_same(name, b"innodb_ft_default_stopword") {
        return Some(ListingKind::DefaultStopword);
    }
    None
}
