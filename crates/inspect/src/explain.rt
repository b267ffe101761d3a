// Prints what one frame is, in words.
use frame::{Body, CodecFault, Detail, MAX_FRAME, Message, MessageKind, ReadError, Refusal};
use std::alloc::Global;
use std::io;

// Hexadecimal digits, or a dash for no bytes.
fn bytes_text(heap: Global, bytes: &[u8]) -> io::Result<String> {
    if bytes.is_empty() {
        return Ok(String::from_str(heap, "-")?);
    }
    Ok(hex_text::encode(heap, bytes)?)
}

// Printable characters as they are, and a dot for any other byte.
fn printable(heap: Global, bytes: &[u8]) -> io::Result<String> {
    let shown = bytes.iter().map(|b| match b {
        b' '..=b'~' => *b as char,
        _ => '.',
    });
    Ok(shown.collect(heap)?)
}

fn show_detail(rt: &HostRuntime, detail: Detail<'_>) -> io::Result<()> {
    let place = detail.place;
    let length = detail.bytes.len();
    let text = printable(rt.alloc(), detail.bytes)?;
    println!(rt; "  detail   \"{text}\" (place {place}, length {length})")
}

fn show_message(rt: &HostRuntime, message: &Message<'_>) -> io::Result<()> {
    let service = message.service;
    let kind = message.body.kind();
    println!(rt; "  service  {service}")?;
    println!(rt; "  message  {kind}")?;
    if let Body::ActReq(pid, _) = message.body {
        println!(rt; "  PID      {pid:02X}")?;
    }
    let payload = message.body.payload();
    let length = payload.len();
    let text = bytes_text(rt.alloc(), payload)?;
    println!(rt; "  payload  {text} (length {length})")?;
    if kind == MessageKind::Error {
        show_detail(rt, message.detail())?;
    }
    Ok(())
}

fn show_fault(rt: &HostRuntime, fault: CodecFault) -> io::Result<()> {
    let code = fault.code();
    let place = code.place;
    println!(rt; "  fault {code} at byte {place}: {fault}")
}

fn show_refusal(rt: &HostRuntime, refusal: Refusal) -> io::Result<()> {
    let number = refusal.number();
    println!(rt; "  refused {number}: {refusal}")
}

fn show_again(rt: &HostRuntime, message: &Message<'_>) -> io::Result<()> {
    let mut out = [0u8; MAX_FRAME];
    match frame::write(message, &mut out) {
        Ok(length) => {
            let text = bytes_text(rt.alloc(), &out[0..length])?;
            println!(rt; "  written  {text}")
        }
        Err(refusal) => show_refusal(rt, refusal),
    }
}

pub(super) fn explain(rt: &HostRuntime, number: u64, bytes: &[u8]) -> io::Result<()> {
    let length = bytes.len();
    println!(rt; "line {number}, length {length}")?;
    match frame::read(bytes) {
        Ok(message) => {
            show_message(rt, &message)?;
            show_again(rt, &message)
        }
        Err(ReadError::Fault(fault)) => show_fault(rt, fault),
        Err(ReadError::Refused(refusal)) => show_refusal(rt, refusal),
    }
}
