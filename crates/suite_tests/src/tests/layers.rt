// A ledger over the bench suite, and a quota over a ledger.
ghost use Rattle.std.specs.Prelude.{IfSome};
ghost use Rattle.ledger.specs.Ledgers.{ledger_meaning};
ghost use Rattle.ledger.specs.Rows.{IsTrueRow};

use bench_suite::Bench;
use ledger::{Ledger, Row, RowMark};
use quota::Quota;
use suite::{Denial, KeyKind, Role, Suite};

const ROOT: [u8; 16] = [7; 16];

// A suite takes a role as a byte.
const SENDER: u8 = Role::Sender as u8;

// Code for any suite: it knows of no ledger.
fn make_and_destroy<S: Suite>(suite: &mut S) {
    let _ = suite.agree(&[1; 16], &[2; 16], SENDER);
    let _ = suite.derive(1);
    let _ = suite.destroy(1);
}

// Even after such code has used the ledger, a row is true of the live keys.
fn row_after_use<S: Suite>(ledger: &mut Ledger<S>, place: usize) -> Option<Row>
    ensures { IfSome result (IsTrueRow (ledger_meaning S.meaning ledger.new).live) }
{
    make_and_destroy(ledger);
    ledger.row(place)
}

#[test]
fn rows_after_use(rt: HostRuntime) {
    let mut suite = Ledger::new(Bench::new(ROOT));
    let first = row_after_use(&mut suite, 0);
    let secret = Row {
        serial: 1,
        kind: KeyKind::SharedSecret,
        mark: RowMark::Destroyed,
    };
    let link = Row {
        serial: 2,
        kind: KeyKind::LinkKey,
        mark: RowMark::Live,
    };
    assert_eq!(rt; first, Some(secret));
    assert_eq!(rt; suite.rows(), [secret, link].as_slice());
    let _root = suite.into_below().close();
}

#[test]
fn quota_over_ledger(rt: HostRuntime) {
    let mut suite = Quota::new(Ledger::new(Bench::new(ROOT)), 1);
    let last = suite.last_serial();
    let answers = [suite.agree(&[1; 16], &[2; 16], SENDER), suite.derive(1)];
    let ledger = suite.into_below();
    let rows = ledger.rows().len();
    let root = ledger.into_below().close();
    assert_eq!(rt; answers, [Ok(1), Err(Denial::Spent)]);
    assert_eq!(rt; (last, rows, root), (1, 1, ROOT));
}
