//! The plain data that the other crates share: ids, texts, rows and settings.
//!
//! `settings.check()?` accepts the settings that a database can have, or names the first field that
//! has another value; `partition_of(b"apple")` is the number of the auxiliary table of a word.
//!
//! A check costs the columns' names, a partition one byte; shared texts are handed on by a counted
//! pointer.
#![tactic(auto)]

mod check;
mod columns;
mod doc_ids;
mod ids;
mod limits;
mod row;
mod settings;
mod shared;
mod table;
mod text;
mod texts;
mod word;

pub use check::{BadSettings, Field};
pub use columns::is_column_name;
pub use doc_ids::DocIds;
pub use ids::{DocId, Key};
pub use limits::Limits;
pub use row::Row;
pub use settings::Settings;
pub use shared::SharedTexts;
pub use table::{partition_of, tables_rise};
pub use text::Text;
pub use texts::{Names, RowTexts, Texts};
pub use word::{Word, WordBytes};
