// A controller hands a day's dosing records to a handset, over a link that loses, repeats and echoes frames. Each call is printed; then the
// calls of both devices are made again from their logs, which gives the number of records to be charged, and the service sheet of the day.
#![tactic(auto)]

mod bill;
mod day;
mod link;
mod log;
mod sheet;
mod station;
mod stopped;

use activation::{Agreed, Offered};
use bill::{Logs, bill};
use day::{EVENING, MORNING, Record};
use entity::Entity;
use keyed_suite::KeyedSuite;
use link::{activate, hand_over, terminate};
use service_sheet::SheetRecord;
use sheet::show_sheet;
use station::Station;
use std::io;
use stopped::Stopped;
use suite::Suite;

// Both devices have the same root from their installer.
const ROOT: [u8; 16] = *b"bath 3, pump two";

// The byte of a device that supports NFC-SEC, PPi or PPt (ISO/IEC 13157-1, annex B.4): bit 7 is ONE.
const SUPPORTS: u8 = 0x80;

fn agreed() -> Result<Agreed, Stopped> {
    Ok(
        Offered::new(SUPPORTS)
            .agree(SUPPORTS)
            .map_err(|refused| refused.refusal)?,
    )
}

fn suite() -> KeyedSuite {
    KeyedSuite::new(ROOT)
}

fn session<S: Suite, T: Suite>(
    rt: &HostRuntime,
    handset: &mut Station<S>,
    controller: &mut Station<T>,
    records: &[Record],
) -> Result<(), Stopped> {
    println!(rt; "Activation")?;
    activate(handset, controller)?;
    for record in records {
        println!(rt; "Record '{}'", record.text)?;
        hand_over(controller, handset, record)?;
    }
    println!(rt; "Termination")?;
    terminate(controller, handset)
}

fn run<S: Suite, T: Suite>(
    rt: &HostRuntime,
    handset: &mut Station<S>,
    controller: &mut Station<T>,
) -> Result<(), Stopped> {
    session(rt, handset, controller, &MORNING)?;
    session(rt, handset, controller, &EVENING)
}

fn end(rt: &HostRuntime, name: &str, entity: Entity<KeyedSuite>) -> io::Result<()> {
    let (suite, destroyed) = entity.put_away();
    let _root = suite.close();
    println!(rt; "  {name} away: {destroyed}")
}

// The day: hands the records over, and returns the logs.
fn live(rt: &HostRuntime) -> Result<Logs, Stopped> {
    let (one, other) = (agreed()?, agreed()?);
    let mut handset = Station::new(rt, "handset", one, suite());
    let mut controller = Station::new(rt, "controller", other, suite());
    let result = run(rt, &mut handset, &mut controller);
    let (one, handset) = handset.into_parts();
    let (other, controller) = controller.into_parts();
    let ended = (end(rt, "handset", one), end(rt, "controller", other));
    result?;
    ended.0?;
    ended.1?;
    Ok(Logs {
        handset,
        controller,
    })
}

// The bill: makes the same calls again, on two new entities. Returns the sessions of the sheet.
fn again(rt: &HostRuntime, logs: &Logs) -> Result<Vec<SheetRecord>, Stopped> {
    let (one, other) = (agreed()?, agreed()?);
    let mut handset = Entity::new(one, suite());
    let mut controller = Entity::new(other, suite());
    let result = bill(rt, &mut handset, &mut controller, logs);
    let ended = (
        end(rt, "handset", handset),
        end(rt, "controller", controller),
    );
    let records = result?;
    ended.0?;
    ended.1?;
    Ok(records)
}

fn main(rt: HostRuntime) -> Result<(), Stopped> {
    let logs = live(&rt)?;
    println!(rt; "The logs made again")?;
    let records = again(&rt, &logs)?;
    println!(rt; "The service sheet of the handset")?;
    show_sheet(&rt, &records)
}
