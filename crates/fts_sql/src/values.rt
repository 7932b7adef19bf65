ghost use Rattle.std.specs.Prelude.{◌≡◌, List, length};
ghost use Rattle.fts_sql.specs.declared.value.Value.{Value as OneValue};

use crate::value::Value;
use std::marker::Model;

/// The values of an INSERT, in their order. Contracts see the list of them.
#[derive(Debug, Drop)]
pub struct Values {
    values: Vec<Value>,
}

impl Model for Values {
    ghost Value = { List OneValue };

    ghost view = { λ v. v.values.items };
}

impl Values {
    /// The values of a list.
    pub fn from_vec(values: Vec<Value>) -> Self
        ensures { result ≡ values.items }
    {
        Values { values }
    }

    /// The list that holds them.
    pub fn into_vec(self) -> Vec<Value>
        ensures { result.items ≡ self }
    {
        let Values { values } = self;
        values
    }

    /// The values, to be looked at.
    pub fn as_slice(&self) -> &[Value]
        ensures { result.now ≡ self.now }
    {
        &self.values
    }

    /// How many there are.
    pub fn len(&self) -> usize
        ensures { result ≡ length self.now }
    {
        self.values.len()
    }
}
