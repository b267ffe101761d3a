// Makes the calls of two logs again: the records that were sent and handed over, session by session, and the sessions of the sheet.
use super::log::StationCall;
use super::stopped::Stopped;
use entity::Entity;
use replay::{Direction, Entry, LoggedCall, SessionRecord, handed_count, replay, sheet_records};
use service_sheet::SheetRecord;
use std::alloc::{AllocError, Global};
use suite::Suite;

// The logs of both devices.
#[derive(Drop)]
pub(super) struct Logs {
    pub(super) handset: Vec<StationCall>,
    pub(super) controller: Vec<StationCall>,
}

fn calls(alloc: Global, log: &[StationCall]) -> Result<Vec<LoggedCall<'_>>, AllocError> {
    log.iter().map(|made| made.logged()).collect(alloc)
}

fn show(rt: &HostRuntime, name: &str, record: &SessionRecord) -> Result<(), Stopped> {
    let session = record.session;
    let direction = match record.direction {
        Direction::Sent => "sent",
        Direction::Handed => "handed",
    };
    let bytes = hex_text::encode(rt.alloc(), record.plain.bytes())?;
    Ok(println!(rt; "  {name}, session {session}: {direction} {bytes}")?)
}

fn show_records(rt: &HostRuntime, name: &str, entries: &[Entry]) -> Result<(), Stopped> {
    for entry in entries {
        if let Some(record) = &entry.record {
            show(rt, name, record)?;
        }
    }
    Ok(())
}

// Prints what each user sent and was handed; what the handset was handed is charged. Returns the handset's sessions, for the sheet.
pub(super) fn bill<S: Suite, T: Suite>(
    rt: &HostRuntime,
    handset: &mut Entity<S>,
    controller: &mut Entity<T>,
    logs: &Logs,
) -> Result<Vec<SheetRecord>, Stopped> {
    let alloc = rt.alloc();
    let one = calls(alloc, &logs.handset)?;
    let other = calls(alloc, &logs.controller)?;
    let told = replay(alloc, handset, controller, &one, &other)?;
    show_records(rt, "controller", &told.other)?;
    show_records(rt, "handset", &told.one)?;
    let charged = handed_count(&told.one);
    println!(rt; "  charged: {charged} records")?;
    Ok(sheet_records(alloc, &one, &told.one)?)
}
