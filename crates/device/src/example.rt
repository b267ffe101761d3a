// The board of the example: it plays a fixed day, and prints what the device does.
use super::advice::Advice;
use super::board::{Board, Event, Link};
use super::day::Happening;
use nfc_sec::{ActivationRefusal, MAX_FRAME, Outcome, Refusal};
use std::io;

#[derive(Drop)]
pub(super) struct Example<'a> {
    rt: &'a HostRuntime,
    rest: &'a [Happening],
    seeds: u8,
}

// Puts bytes to the front of a buffer, as many as it takes.
fn put<'a>(bytes: &[u8], buffer: &'a mut [u8; MAX_FRAME]) -> &'a [u8] {
    let length = bytes.len().min(MAX_FRAME);
    buffer[..length].copy_from_slice(&bytes[..length]);
    &buffer[..length]
}

impl<'a> Example<'a> {
    pub(super) fn new(rt: &'a HostRuntime, day: &'a [Happening]) -> Example<'a> {
        Example {
            rt,
            rest: day,
            seeds: 0,
        }
    }

    fn next(&mut self) -> Option<Happening> {
        let (first, rest) = self.rest.split_first()?;
        self.rest = rest;
        Some(*first)
    }

    fn show(&self, what: &str, frame: &[u8]) -> io::Result<()> {
        let digits = hex_text::encode(self.rt.alloc(), frame)?;
        println!(self.rt; "  {what} {digits}")
    }

    fn show_text(&self, what: &str, record: &[u8]) -> io::Result<()> {
        let text = str::from_utf8(record).unwrap_or("no text");
        println!(self.rt; "  {what} '{text}'")
    }
}

impl Board for Example<'_> {
    type Error = io::Error;

    fn next_link(&mut self) -> io::Result<Option<Link>> {
        match self.next() {
            Some(Happening::Linked(link)) => {
                println!(self.rt; "link: own {:02X}, peer {:02X}", link.own, link.peer)?;
                Ok(Some(link))
            }
            _ => Ok(None),
        }
    }

    fn next_event<'a>(&mut self, buffer: &'a mut [u8; MAX_FRAME]) -> io::Result<Option<Event<'a>>> {
        let Some(Happening::On(event)) = self.next() else {
            println!(self.rt; "  released")?;
            return Ok(None);
        };
        Ok(Some(match event {
            Event::Wanted(service) => {
                println!(self.rt; "  wanted: {service}")?;
                Event::Wanted(service)
            }
            Event::Frame(frame) => {
                self.show("frame", frame)?;
                Event::Frame(put(frame, buffer))
            }
            Event::Record(record) => {
                self.show_text("to send:", record)?;
                Event::Record(put(record, buffer))
            }
            Event::Done => {
                println!(self.rt; "  done")?;
                Event::Done
            }
        }))
    }

    fn transmit(&mut self, frame: &[u8]) -> io::Result<bool> {
        if let [Happening::Lost, rest @ ..] = self.rest {
            self.rest = rest;
            self.show("lost", frame)?;
            return Ok(false);
        }
        self.show("transmitted", frame)?;
        Ok(true)
    }

    // Fixed seeds, so that the day can be followed. A device draws them at random.
    fn draw_seed(&mut self, seed: &mut [u8; 16]) -> io::Result<()> {
        self.seeds = self.seeds.wrapping_add(1);
        seed.fill(self.seeds);
        Ok(())
    }

    fn take_record(&mut self, record: &[u8]) -> io::Result<()> {
        self.show_text("received:", record)
    }

    fn take_secret(&mut self, secret: &[u8; 16]) -> io::Result<()> {
        self.show("secret", secret)
    }

    fn confirmed(&mut self, outcome: &Outcome, delivered: bool) -> io::Result<()> {
        let confirmation = outcome.confirmation;
        let number = confirmation.number();
        println!(self.rt; "  confirmation {number} {confirmation}")?;
        if let Some(fault) = outcome.fault {
            println!(self.rt; "  fault {}, {fault}", fault.code())?;
        }
        if !delivered {
            println!(self.rt; "  not delivered")?;
        }
        Ok(())
    }

    fn refused(&mut self, refusal: Refusal, advice: Advice) -> io::Result<()> {
        let number = refusal.number();
        println!(self.rt; "  refused {number}, {refusal}: {advice}")
    }

    fn unsupported(&mut self, refusal: ActivationRefusal) -> io::Result<()> {
        let number = refusal.number();
        println!(self.rt; "  refused {number}, {refusal}")
    }
}
