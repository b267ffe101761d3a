// What the input says: the session records of a visit, and the length of the buffer for their sheet.
ghost use Rattle.std.specs.Prelude.{◌≤◌};
ghost use Rattle.service_sheet.specs.declared.limits.TheConstants.{MAX_SHEET};

use super::stopped::{Stopped, Unreadable};
use super::words;
use service_sheet::{MAX_SHEET, SheetRecord};
use std::alloc::{AllocError, Global};

#[derive(Drop)]
pub(super) struct Visit {
    // The length of the buffer. MAX_SHEET bytes have room for every sheet, so a greater length is cut to that and costs no memory.
    room: usize,
    records: Vec<SheetRecord>,
    ghost no_longer: { room ≤ MAX_SHEET },
}

impl Visit {
    // Reads all lines. The error says which is the first that cannot be read.
    pub(super) fn read(heap: Global, text: &[u8]) -> Result<Visit, Stopped> {
        let mut visit = Visit {
            room: MAX_SHEET,
            records: Vec::new(heap),
        };
        for (number, line) in (1..).zip(text.split(|b| *b == b'\n')) {
            visit
                .read_line(heap, line)
                .map_err(|reason| Stopped::Line { number, reason })?;
        }
        Ok(visit)
    }

    pub(super) fn room(&self) -> usize {
        self.room
    }

    pub(super) fn records(&self) -> &[SheetRecord] {
        &self.records
    }

    fn read_line(&mut self, heap: Global, line: &[u8]) -> Result<(), Unreadable> {
        if let [b'#', ..] = line {
            return Ok(());
        }
        let line = str::from_utf8(line).map_err(|_| Unreadable::NotText)?;
        self.read_words(&words::split(heap, line)?)
    }

    fn read_words(&mut self, line: &[&str]) -> Result<(), Unreadable> {
        match line {
            [] => Ok(()),
            ["room", ..] if !self.records.is_empty() => Err(Unreadable::RoomLate),
            ["room", length] => {
                self.room = words::count(length)?.min(MAX_SHEET);
                Ok(())
            }
            [number, service, sent, taken, end] => {
                let session = SheetRecord {
                    number: words::number(number)?,
                    service: words::service(service)?,
                    sent: words::count(sent)?,
                    taken: words::count(taken)?,
                    end: words::end(end)?,
                };
                Ok(self.records.push(session).map_err(AllocError::from)?)
            }
            _ => Err(Unreadable::NoSuchLine),
        }
    }
}
