// Sets up two peers, and makes their calls in the order of the script.
use super::call::{Name, Step};
use super::peer::Peer;
use super::printer::Printer;
use super::setup::{Layers, Setup, Side};
use super::stack::Stack;
use super::stopped::Stopped;
use activation::{Agreed, Offered, Refused};
use ledger::Ledger;
use quota::Quota;
use std::io;
use suite_of::{Kind, SuiteOf};

// The set-up of the script decides the type of both suites.
pub(super) fn play_over<K: Kind>(
    rt: &HostRuntime,
    setup: Setup,
    steps: &[Step],
) -> Result<(), Stopped> {
    match setup.layers {
        Layers::Bare => play_with::<SuiteOf<K>>(rt, setup, 0, steps),
        Layers::Quota(keys) => play_with::<Quota<SuiteOf<K>>>(rt, setup, keys, steps),
        Layers::Ledger => play_with::<Ledger<SuiteOf<K>>>(rt, setup, 0, steps),
        Layers::QuotaOverLedger(keys) => play_with::<Quota<Ledger<SuiteOf<K>>>>(
            rt, setup, keys, steps,
        ),
        Layers::LedgerOverQuota(keys) => play_with::<Ledger<Quota<SuiteOf<K>>>>(
            rt, setup, keys, steps,
        ),
    }
}

// A peer's exchange of activation bytes with the other, which is printed.
fn activate(printer: Printer<'_>, own: Side, other: Side) -> io::Result<Option<Agreed>> {
    match Offered::new(own.sec).agree(other.sec) {
        Ok(agreed) => {
            printer.says(&"activation", &"agreed")?;
            Ok(Some(agreed))
        }
        Err(Refused { refusal, offer: _ }) => {
            let number = refusal.number();
            printer.says(&"activation", &format_args!("refused {number}"))?;
            Ok(None)
        }
    }
}

fn turns<S: Stack>(steps: &[Step], a: &mut Peer<S>, b: &mut Peer<S>) -> io::Result<()> {
    for step in steps {
        match step.peer {
            Name::A => a.play(&step.action, b.latest())?,
            Name::B => b.play(&step.action, a.latest())?,
        }
    }
    Ok(())
}

// Without a call no peer is made, and nothing is printed.
fn play_with<S: Stack>(
    rt: &HostRuntime,
    setup: Setup,
    keys: u32,
    steps: &[Step],
) -> Result<(), Stopped> {
    if steps.is_empty() {
        return Ok(());
    }
    let Setup { a, b, .. } = setup;
    let one = Printer { rt, name: Name::A };
    let other = Printer { rt, name: Name::B };
    let agreed = (activate(one, a, b)?, activate(other, b, a)?);
    let mut first = Peer::<S>::new(one, agreed.0, a.root, keys);
    let mut second = Peer::<S>::new(other, agreed.1, b.root, keys);
    let result = turns(steps, &mut first, &mut second);
    first.end();
    second.end();
    Ok(result?)
}
