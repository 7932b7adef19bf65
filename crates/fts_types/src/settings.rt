use crate::texts::Names;

/// The settings of a database.
#[derive(Debug, Drop)]
pub struct Settings {
    /// The names of the text columns, 1 to 8.
    pub columns: Names,
    /// The least length of an indexed word, in bytes (MySQL: `innodb_ft_min_token_size`).
    pub min: u8,
    /// The greatest length of an indexed word, in bytes (MySQL: `innodb_ft_max_token_size`).
    pub max: u8,
    /// Whether stopwords are left out (MySQL: `innodb_ft_enable_stopword`).
    pub stopword: bool,
    /// How many words one OPTIMIZE works on at most (MySQL: `innodb_ft_num_word_optimize`).
    pub optimize_words: u16,
    /// Above which size, in bytes, the cache of words is flushed (MySQL: `innodb_ft_cache_size`).
    pub cache_bytes: u32,
    /// How many documents one batch flushes at most.
    pub batch_docs: u32,
}
