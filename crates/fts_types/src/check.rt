ghost use Rattle.std.specs.Prelude.{◌≡◌, Some, OnOk, IfErr};
ghost use Rattle.fts_types.specs.Settings.{AreSettings, first_wrong, first_wrong_of, is_right};

use crate::columns::are_columns;
use crate::settings::Settings;
use std::error::Error;
use std::fmt;

/// A field of the settings whose value has bounds.
#[derive(Clone, Copy, Debug, PartialEq, Eq)]
pub enum Field {
    Columns,
    Min,
    Max,
    OptimizeWords,
    CacheBytes,
    BatchDocs,
}

impl Field {
    /// The field's name.
    fn name(self) -> &'static str {
        match self {
            Field::Columns => "columns",
            Field::Min => "min",
            Field::Max => "max",
            Field::OptimizeWords => "optimize_words",
            Field::CacheBytes => "cache_bytes",
            Field::BatchDocs => "batch_docs",
        }
    }
}

/// Settings that no database can have: the first field, in their order, with a value that it may
/// not have.
#[derive(Clone, Copy, Debug, PartialEq, Eq)]
pub struct BadSettings {
    pub field: Field,
}

impl fmt::Display for BadSettings {
    fn fmt<W: fmt::Write>(&self, f: &mut fmt::Formatter<W>) -> fmt::Result {
        f.write_str("bad settings: ")?;
        f.write_str(self.field.name())
    }
}

impl Error for BadSettings {}

/// Whether a field has a value that it may have.
fn is_right(field: Field, settings: &Settings) -> bool
    ensures { result ≡ is_right field settings.now }
{
    match field {
        Field::Columns => are_columns(&settings.columns),
        Field::Min => matches!(settings.min, 1..=16),
        Field::Max => matches!(settings.max, 10..=84),
        Field::OptimizeWords => matches!(settings.optimize_words, 1..=10_000),
        Field::CacheBytes => matches!(settings.cache_bytes, 1_000..=80_000_000),
        Field::BatchDocs => matches!(settings.batch_docs, 1..=100_000),
    }
}

/// The first of these fields that has a value that it may not have.
fn first_wrong(fields: &[Field], settings: &Settings) -> Option<Field>
    ensures { result ≡ first_wrong_of fields.now settings.now }
{
    match fields {
        [] => None,
        [field, rest @ ..] => {
            if !is_right(*field, settings) {
                return Some(*field);
            }
            first_wrong(rest, settings)
        }
    }
}

/// The fields that have bounds, in their order.
const FIELDS: [Field; 6] = [
    Field::Columns,
    Field::Min,
    Field::Max,
    Field::OptimizeWords,
    Field::CacheBytes,
    Field::BatchDocs,
];

impl Settings {
    /// Whether a database can have these settings: 1 to 8 columns of distinct names, `min` from 1
    /// to 16, `max` from 10 to 84, `optimize_words` from 1 to 10,000, `cache_bytes` from 1,000 to
    /// 80,000,000, `batch_docs` from 1 to 100,000.
    ///
    /// Fails with the first field, in this order, that has another value.
    pub fn check(&self) -> Result<(), BadSettings>
        ensures ok { OnOk result (AreSettings self.now) }
        ensures field { IfErr result (λ wrong. first_wrong self.now ≡ Some wrong.field) }
    {
        match first_wrong(&FIELDS, self) {
            Some(field) => Err(BadSettings { field }),
            None => Ok(()),
        }
    }
}
