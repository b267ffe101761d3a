// The service sheet of the day.
use super::stopped::Stopped;
use service_sheet::{MAX_SHEET, SheetRecord};
use std::io::Write;

pub(super) fn show_sheet(rt: &HostRuntime, records: &[SheetRecord]) -> Result<(), Stopped> {
    let mut text = [0; MAX_SHEET];
    let length = service_sheet::write(records, &mut text)?;
    Ok(rt.stdout().write_all(&text[..length])?)
}
