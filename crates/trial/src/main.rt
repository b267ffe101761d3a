// Suites of each kind at work: two peers agree, verify, protect one dosing record and destroy their keys; then the same through layers.
#![tactic(auto)]

mod peer;
mod session;
mod stopped;

use bench_suite::BenchKind;
use keyed_suite::KeyedKind;
use ledger::Ledger;
use peer::Peer;
use quota::Quota;
use session::hand_over_one_record;
use stopped::{Stopped, report};
use suite::{Role, Suite};
use suite_of::{Kind, SuiteOf};

const ROOT: [u8; 16] = [0; 16];

fn bare<K: Kind>(rt: &HostRuntime, kind: &str) -> Result<(), Stopped> {
    println!(rt; "Two {kind} suites")?;
    let mut sender = Peer::new(rt, Role::Sender, SuiteOf::<K>::new(ROOT));
    let mut recipient = Peer::new(rt, Role::Recipient, SuiteOf::<K>::new(ROOT));
    let result = hand_over_one_record(&mut sender, &mut recipient);
    let _roots = (sender.into_suite().close(), recipient.into_suite().close());
    result
}

fn show_rows<S: Suite>(rt: &HostRuntime, ledger: &Ledger<S>) -> Result<(), Stopped> {
    for (place, row) in ledger.rows().iter().enumerate() {
        println!(rt;
            "  ledger row {place}: serial {}, {}, {}",
            row.serial, row.kind, row.mark
        )?;
    }
    Ok(())
}

// One session uses up the quota of two keys, so the next agreement is denied.
fn session_and_more<S: Suite, T: Suite>(
    rt: &HostRuntime,
    sender: &mut Peer<Ledger<S>>,
    recipient: &mut Peer<T>,
) -> Result<(), Stopped> {
    hand_over_one_record(sender, recipient)?;
    report(rt, sender.agree(&[2; 16]))?;
    show_rows(rt, sender.suite())
}

fn layered<K: Kind>(rt: &HostRuntime) -> Result<(), Stopped> {
    println!(rt; "The Sender's suite under a quota of two keys, and a ledger over that")?;
    let suite = Ledger::new(Quota::new(SuiteOf::<K>::new(ROOT), 2));
    let mut sender = Peer::new(rt, Role::Sender, suite);
    let mut recipient = Peer::new(rt, Role::Recipient, SuiteOf::<K>::new(ROOT));
    let result = session_and_more(rt, &mut sender, &mut recipient);
    let _roots = (
        sender.into_suite().into_below().into_below().close(),
        recipient.into_suite().close(),
    );
    result
}

fn play<K: Kind>(rt: &HostRuntime, kind: &str) -> Result<(), Stopped> {
    report(rt, bare::<K>(rt, kind))?;
    report(rt, layered::<K>(rt))
}

fn main(rt: HostRuntime) -> Result<(), Stopped> {
    play::<BenchKind>(&rt, "bench")?;
    play::<KeyedKind>(&rt, "keyed")
}
