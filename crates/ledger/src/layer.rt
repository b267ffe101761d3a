ghost use Rattle.std.specs.Prelude.{◌≡◌, ◌+◌, ◌≤◌, min, [], length, None, IfSome};
ghost use Rattle.std.specs.List.{slice_get};
ghost use Rattle.suite.specs.Meanings.{with_last};
ghost use Rattle.suite.specs.Calls.{after_making, after_destroy};
ghost use Rattle.quota.specs.Allowances.{quota_meaning};
ghost use Rattle.quota.specs.AllowanceProofs.{limited_meaning-formed};
ghost use Rattle.ledger.specs.Rows.{rows_after_making, rows_after_destroying, IsTrueRow, TellsKeys};
ghost use Rattle.ledger.specs.Tables.{table_rows};
ghost use Rattle.ledger.specs.RowProofs.{TellsKeys-prop};

use crate::row::Row;
use crate::table::Table;
use quota::Quota;
use suite::{Denial, HasMeaning, KeyKind, Layer, Suite};

/// A layer that makes at most 32 further keys, and keeps a row for each key made through it. It cannot be dropped, only taken off by
/// `into_below`, so that the suite below is not lost. Its quota allows as many further keys as the table has unused rows, and the rows
/// tell of its suite's keys, whoever has used it.
pub struct Ledger<S: HasMeaning> {
    below: Quota<S>,
    table: Table,
    ghost unused: { below.left + length (table_rows table) ≡ 32 },
    ghost told: { TellsKeys (quota_meaning S.meaning below) (table_rows table) } by { TellsKeys-prop (quota_meaning S.meaning below) (table_rows table) },
}

impl<S: Suite> Ledger<S> {
    ghost use Rattle.ledger.specs.Ledgers.{ledger_meaning, rows_of};

    /// Puts a ledger over a suite. It has no rows yet: keys made before get none.
    pub fn new(below: S) -> Ledger<S>
        ensures meaning { ledger_meaning S.meaning result ≡ with_last (S.meaning below) (min (S.meaning below).last ((S.meaning below).newest + 32)) }
        ensures below { result.below.below ≡ below }
        ensures rows { rows_of result ≡ [] }
    {
        Ledger {
            below: Quota::new(below, 32),
            table: Table::new(),
        }
    }

    /// Takes the layer off, and returns the suite below.
    pub fn into_below(self) -> S
        ensures { result ≡ self.below.below }
    {
        let Ledger { below, table: _ } = self;
        below.into_below()
    }

    /// All rows in use, at most 32: one for each key made through the ledger, in the order made. They tell of the newest keys of its suite,
    /// as many as 32 less the keys that its quota still allows.
    pub fn rows(&self) -> &[Row]
        ensures rows { result.now ≡ rows_of self.now }
        ensures count { self.now.below.left + length result.now ≡ 32 }
        ensures told { TellsKeys (ledger_meaning S.meaning self.now) result.now }
    {
        self.table.rows()
    }

    /// The row at a place from 0 to 31; `None` at an unused place and at every place from 32 on.
    pub fn row(&self, place: usize) -> Option<Row>
        ensures row { result ≡ slice_get (rows_of self.now) place }
        ensures told { IfSome result (IsTrueRow (ledger_meaning S.meaning self.now).live) }
        ensures past { 32 ≤ place → result ≡ None }
    {
        self.rows().get(place).copied()
    }
}

impl<S: HasMeaning> HasMeaning for Ledger<S> {
    ghost use Rattle.ledger.specs.Ledgers.{ledger_meaning};

    ghost meaning = { ledger_meaning S.meaning };
}

// Besides what every layer promises: what the suite below means after the call, and what the rows are.
impl<S: Suite> Layer for Ledger<S> {
    ghost use Rattle.ledger.specs.Ledgers.{rows_of};

    type Below = S;

    ghost made = { λ x kind value result y. (S.meaning y.below.below ≡ after_making (S.meaning x.below.below) kind value) × (rows_of y ≡ rows_after_making kind result (rows_of x)) };

    ghost destroyed = { λ x key result y. (S.meaning y.below.below ≡ after_destroy (S.meaning x.below.below) key) × (rows_of y ≡ rows_after_destroying key result (rows_of x)) };

    ghost formed = { λ x. limited_meaning-formed (S.meaning x.below.below) x.below.left (S.formed x.below.below) };

    fn below(&self) -> &S {
        self.below.below()
    }

    fn last_through(&self) -> u32 {
        self.below.last_serial()
    }

    // Two methods: one for both calls that make a key, with the call below as a closure, would need four clauses and a longer proof to save
    // four lines.
    fn agree_through(&mut self, seed: &[u8], offer: &[u8], role: u8) -> Result<u32, Denial> {
        let serial = self.below.agree(seed, offer, role)?;
        self.table.enter(serial, KeyKind::SharedSecret);
        Ok(serial)
    }

    fn derive_through(&mut self, key: u32) -> Result<u32, Denial> {
        let serial = self.below.derive(key)?;
        self.table.enter(serial, KeyKind::LinkKey);
        Ok(serial)
    }

    fn destroy_through(&mut self, key: u32) -> Result<(), Denial> {
        self.below.destroy(key)?;
        self.table.strike(key);
        Ok(())
    }
}
