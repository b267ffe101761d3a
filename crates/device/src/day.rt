// What happens on the board of the example: frames of a peer that was given the same root.
use super::board::{Event, Link};
use nfc_sec::Service;

#[derive(Clone, Copy)]
pub(super) enum Happening {
    Linked(Link),
    On(Event<'static>),
    // The frame that the device transmits next is not delivered.
    Lost,
    Released,
}

use Happening::{Linked, Lost, On, Released};

const ACT_RES: [u8; 17] = *b"\x11\xED\xED\xED\xED\xED\xED\xED\xED\xED\xED\xED\xED\xED\xED\xED\xED";

const VFY_RES: [u8; 9] = *b"\x13\x9B\x25\x00\xFD\x85\x6F\xA7\x13";

// "chlorine 0.42 l", the first record of the session.
const ENC: [u8; 29] =
    *b"\x14\x02\x00\x00\x00\x01\xED\xA9\x2D\xD9\xFF\xC3\x66\x43\x41\x10\x5A\x50\xFD\xBF\xF0\x5C\x32\xB8\xEB\xC2\xF8\x6C\x87";

// The peer asks for a shared secret.
const ACT_REQ_SSE: [u8; 18] =
    *b"\x00\xF1\xEE\xEE\xEE\xEE\xEE\xEE\xEE\xEE\xEE\xEE\xEE\xEE\xEE\xEE\xEE\xEE";

const VFY_REQ_SSE: [u8; 9] = *b"\x02\x81\xE4\x1C\xD9\x95\x9D\xC2\x72";

pub(super) const DAY: [Happening; 20] = [
    // A device without NFC-SEC.
    Linked(Link {
        own: 0x80,
        peer: 0x02,
    }),
    Linked(Link {
        own: 0x80,
        peer: 0x82,
    }),
    On(Event::Wanted(Service::Sch)),
    On(Event::Frame(&ACT_RES)),
    On(Event::Frame(&VFY_RES)),
    On(Event::Frame(&ENC)),
    On(Event::Frame(&ENC)),
    On(Event::Record(b"flow 3.1 l/m")),
    Lost,
    On(Event::Record(b"")),
    // Of no service.
    On(Event::Frame(b"\x20")),
    On(Event::Record(b"flow 3.2 l/m")),
    On(Event::Frame(&ACT_REQ_SSE)),
    On(Event::Frame(&VFY_REQ_SSE)),
    On(Event::Done),
    On(Event::Wanted(Service::Sch)),
    Lost,
    Lost,
    Lost,
    Released,
];
