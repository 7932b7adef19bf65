/// One of the views of an index that can be listed.
///
/// Source: MySQL 8.0 Reference Manual, "InnoDB INFORMATION_SCHEMA FULLTEXT Index Tables".
#[derive(Debug, Clone, Copy, PartialEq, Eq)]
pub enum ListingKind {
    /// The words of the six auxiliary tables (`INNODB_FT_INDEX_TABLE`).
    IndexTable,
    /// The words of the cache (`INNODB_FT_INDEX_CACHE`).
    IndexCache,
    /// The ids of the documents that died and that the index has still (`INNODB_FT_DELETED`).
    Deleted,
    /// The ids that the open pass takes out of the tables (`INNODB_FT_BEING_DELETED`).
    BeingDeleted,
    /// Settings, and how far the index is flushed (`INNODB_FT_CONFIG`).
    Config,
    /// The default stopwords (`INNODB_FT_DEFAULT_STOPWORD`).
    DefaultStopword,
}
