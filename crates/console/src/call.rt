// What a line of a script has a peer do.
use super::stopped::Unreadable;
use super::words::{byte, bytes, size};
use entity::{Ancillary, Call};
use frame::Service;
use std::alloc::Global;
use std::fmt;

// One of the two peers.
#[derive(Clone, Copy)]
pub(super) enum Name {
    A,
    B,
}

impl Name {
    pub(super) fn read(word: &str) -> Result<Name, Unreadable> {
        match word {
            "A" => Ok(Name::A),
            "B" => Ok(Name::B),
            _ => Err(Unreadable::NoSuchLine),
        }
    }
}

impl fmt::Display for Name {
    fn fmt<W: fmt::Write>(&self, f: &mut fmt::Formatter<W>) -> fmt::Result {
        f.write_str(match self {
            Name::A => "A",
            Name::B => "B",
        })
    }
}

// The frame that a peer is to receive.
#[derive(Drop)]
pub(super) enum Received {
    // The frame that the other peer wrote last.
    Latest,
    Bytes(Vec<u8>),
}

impl Received {
    fn read(heap: Global, word: &str) -> Result<Received, Unreadable> {
        match word {
            "<" => Ok(Received::Latest),
            _ => Ok(Received::Bytes(bytes(heap, word)?)),
        }
    }

    fn bytes<'a>(&'a self, latest: &'a [u8]) -> &'a [u8] {
        match self {
            Received::Latest => latest,
            Received::Bytes(bytes) => bytes,
        }
    }
}

// A call of an entity, with its bytes.
#[derive(Drop)]
pub(super) enum Request {
    Invoke {
        service: Service,
        pid: u8,
        seed: Vec<u8>,
    },
    Send(Vec<u8>),
    Data,
    Secret,
    Terminate,
    Frame {
        received: Received,
        seed: Vec<u8>,
    },
    Release,
}

fn service(word: &str) -> Result<Service, Unreadable> {
    match word {
        "sse" => Ok(Service::Sse),
        "sch" => Ok(Service::Sch),
        _ => Err(Unreadable::NoSuchLine),
    }
}

impl Request {
    fn read(heap: Global, words: &[&str]) -> Result<Request, Unreadable> {
        match words {
            ["invoke", name, pid, seed] => Ok(Request::Invoke {
                service: service(name)?,
                pid: byte(heap, pid)?,
                seed: bytes(heap, seed)?,
            }),
            ["send", plain] => Ok(Request::Send(bytes(heap, plain)?)),
            ["data"] => Ok(Request::Data),
            ["secret"] => Ok(Request::Secret),
            ["terminate"] => Ok(Request::Terminate),
            ["frame", frame, seed] => Ok(Request::Frame {
                received: Received::read(heap, frame)?,
                seed: bytes(heap, seed)?,
            }),
            _ => Err(Unreadable::NoSuchLine),
        }
    }

    // The call as an entity takes it. `latest` is the frame that the other peer wrote last.
    pub(super) fn call<'a>(&'a self, latest: &'a [u8]) -> Call<'a> {
        match self {
            Request::Invoke { service, pid, seed } => Call::Invoke {
                service: *service,
                pid: *pid,
                seed,
            },
            Request::Send(plain) => Call::Send { plain },
            Request::Data => Call::RetrieveData,
            Request::Secret => Call::RetrieveSecret,
            Request::Terminate => Call::Terminate,
            Request::Frame { received, seed } => Call::Frame {
                bytes: received.bytes(latest),
                beside: Ancillary { seed },
            },
            Request::Release => Call::Release,
        }
    }

    // Returns whether what it writes is a frame for the other peer, and not data or a secret.
    pub(super) fn writes_frame(&self) -> bool {
        !matches!(self, Request::Data | Request::Secret)
    }
}

// What a peer is to do.
#[derive(Drop)]
pub(super) enum Action {
    // A call, with the length of the buffer that it may write.
    Request(Request, usize),
    // The entity is put away.
    Away,
}

impl Action {
    fn read(heap: Global, words: &[&str]) -> Result<Action, Unreadable> {
        match words {
            ["release"] => Ok(Action::Request(Request::Release, 0)),
            ["away"] => Ok(Action::Away),
            [request @ .., room] => Ok(Action::Request(Request::read(heap, request)?, size(room)?)),
            [] => Err(Unreadable::NoSuchLine),
        }
    }
}

// By its word in a script.
impl fmt::Display for Action {
    fn fmt<W: fmt::Write>(&self, f: &mut fmt::Formatter<W>) -> fmt::Result {
        f.write_str(match self {
            Action::Request(Request::Invoke { .. }, _) => "invoke",
            Action::Request(Request::Send(_), _) => "send",
            Action::Request(Request::Data, _) => "data",
            Action::Request(Request::Secret, _) => "secret",
            Action::Request(Request::Terminate, _) => "terminate",
            Action::Request(Request::Frame { .. }, _) => "frame",
            Action::Request(Request::Release, _) => "release",
            Action::Away => "away",
        })
    }
}

// One peer's turn.
#[derive(Drop)]
pub(super) struct Step {
    pub(super) peer: Name,
    pub(super) action: Action,
}

impl Step {
    pub(super) fn read(heap: Global, words: &[&str]) -> Result<Step, Unreadable> {
        match words {
            [peer, action @ ..] => Ok(Step {
                peer: Name::read(peer)?,
                action: Action::read(heap, action)?,
            }),
            [] => Err(Unreadable::NoSuchLine),
        }
    }
}
