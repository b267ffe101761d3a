ghost use Rattle.std.specs.Prelude.{◌≡◌, ◌<◌, [], ◌∷◌, ◌++◌, length};
ghost use Rattle.std.specs.List.{position};
ghost use Rattle.ledger.specs.Rows.{live_row, destroyed_row, rows_with_mark, has_serial};
ghost use Rattle.ledger.specs.Tables.{table_rows};

use crate::row::{Row, RowMark};
use arrayvec::ArrayVec;
use suite::KeyKind;

// One row for each key that was made through a ledger, at most 32.
#[derive(Drop)]
pub(crate) struct Table {
    rows: ArrayVec<Row, 32>,
}

impl Table {
    pub(crate) fn new() -> Table
        ensures { table_rows result ≡ [] }
    {
        Table {
            rows: ArrayVec::new(),
        }
    }

    // The rows, in the order in which they were entered.
    pub(crate) fn rows(&self) -> &[Row]
        ensures { result.now ≡ table_rows self.now }
    {
        self.rows.as_slice()
    }

    // Appends the row of a key that was just made.
    pub(crate) fn enter(&mut self, serial: u32, kind: KeyKind)
        requires { length (table_rows self.old) < 32 }
        ensures { table_rows self.new ≡ table_rows self.old ++ (live_row serial kind ∷ []) }
    {
        self.rows.push(Row {
            serial,
            kind,
            mark: RowMark::Live,
        });
    }

    // Marks the row of that serial as destroyed, where there is one, and no other.
    #[tactic(auto, using(crate::proofs::TableLaws::strikes))]
    pub(crate) fn strike(&mut self, serial: u32)
        ensures rows { table_rows self.new ≡ rows_with_mark serial (table_rows self.old) }
        ensures count { length (table_rows self.new) ≡ length (table_rows self.old) }
    {
        if let Some(place) = place_of(self.rows.as_slice(), serial) {
            mark_destroyed(&mut self.rows[place]);
        }
    }
}

// Takes one row, which the caller finds by its place: no proof knows what is written through `iter_mut().find(..)`.
fn mark_destroyed(row: &mut Row)
    ensures { row.new ≡ destroyed_row row.old }
{
    row.mark = RowMark::Destroyed;
}

// Returns the place of the row of that serial.
fn place_of(rows: &[Row], serial: u32) -> Option<usize>
    ensures { result ≡ position (has_serial serial) rows.now }
{
    rows.iter().position(|row| row.serial == serial)
}
