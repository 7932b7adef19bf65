ghost use Rattle.std.specs.Prelude.{◌≡◌, ◌++◌, map};
ghost use Rattle.fts_commits.specs.Commit.{Rows as RowList};
ghost use Rattle.fts_commits.specs.Turn.{Turn, rows_but, turn_between};
ghost use Rattle.fts_ids.specs.Ids.{Ascend};
ghost use Rattle.fts_types.specs.Row.{row_of};
ghost use Rattle.fts_rows.specs.Rows.{Held, rows_of};
ghost use Rattle.fts_rows.specs.Plan.{PlanFor};

use fts_types::{DocId, Row};
use std::marker::Model;

/// What a commit does to the rows: the rows that are born, the document ids that die, and the
/// largest id that is used after it.
#[derive(Drop)]
pub struct Plan {
    // By ascending ids, as the next.
    births: Vec<Row>,
    deaths: Vec<DocId>,
    largest: DocId,
}

impl Model for Plan {
    ghost use Rattle.std.specs.Prelude.{map};
    ghost use Rattle.fts_commits.specs.Turn.{Turn};
    ghost use Rattle.fts_types.specs.Row.{row_of};

    ghost Value = { Turn };

    ghost view = { λ p. record {
      births = map row_of p.births.items;
      deaths = p.deaths.items;
      largest = p.largest;
    } };
}

impl Plan {
    /// The plan of a turn, by its parts.
    pub(crate) fn new(births: Vec<Row>, deaths: Vec<DocId>, largest: DocId) -> Self
        ensures { result ≡ record {
          births = map row_of births.items;
          deaths = deaths.items;
          largest = largest;
        } }
    {
        Plan {
            births,
            deaths,
            largest,
        }
    }

    /// The rows that the commit adds behind all others, by ascending ids. One that a later change
    /// of it takes out again is not among them.
    pub fn births(&self) -> &[Row]
        ensures births { map row_of result.now ≡ self.now.births }
        ensures added { (held : Held) (after : RowList) → PlanFor held self.now after
            → after.list
            ≡ rows_but self.now.deaths (rows_of held).list ++ map row_of result.now }
        ensures born { (held : Held) (after : RowList) → PlanFor held self.now after
            → map row_of result.now ≡ (turn_between (rows_of held) after).births }
    {
        &self.births
    }

    /// The document ids of the rows that stood before the commit and go in it, ascending.
    pub fn deaths(&self) -> &[DocId]
        ensures deaths { result.now ≡ self.now.deaths }
        ensures died { (held : Held) (after : RowList) → PlanFor held self.now after
            → result.now ≡ (turn_between (rows_of held) after).deaths }
        ensures ascend { (held : Held) (after : RowList) → PlanFor held self.now after
            → Ascend result.now }
    {
        &self.deaths
    }

    /// The largest id that is used after the commit.
    pub fn largest(&self) -> DocId
        ensures { result ≡ self.now.largest }
    {
        self.largest
    }

    /// The rows that are born, the ids that die, and the largest id that is used after the commit.
    pub(crate) fn into_parts(self) -> (Vec<Row>, Vec<DocId>, DocId)
        ensures births { map row_of result.0.items ≡ self.births }
        ensures deaths { result.1.items ≡ self.deaths }
        ensures largest { result.2 ≡ self.largest }
    {
        let Plan {
            births,
            deaths,
            largest,
        } = self;
        (births, deaths, largest)
    }
}
