use frame::Service::{Sch, Sse};
use frame::{
    Body, CodecFault, Detail, FaultCode, MAX_FRAME, Message, MessageKind, ReadError, Refusal,
    Service,
};

// Each kind of message is read from its frame, and written as the same frame.
#[test]
fn messages(rt: HostRuntime) {
    let frames: [(&[u8], Service, Body<'_>); 8] = [
        (&[0x10, 0xF0, 1, 2], Sch, Body::ActReq(0xF0, &[1, 2])),
        (&[0x11, 5, 6, 7], Sch, Body::ActRes(&[5, 6, 7])),
        (&[0x02, 9], Sse, Body::VfyReq(&[9])),
        (&[0x13], Sch, Body::VfyRes(&[])),
        (&[0x14, 1], Sch, Body::Enc(&[1])),
        (&[0x06], Sse, Body::Tmn(&[])),
        (&[0x1F, 0x4D, 0x31, 0], Sch, Body::Error(b"M1\0")),
        (&[0x0F], Sse, Body::Error(&[])),
    ];
    for (frame, service, body) in frames {
        let message = Message { service, body };
        let mut out = [0xEE; MAX_FRAME];
        assert_eq!(rt; frame::read(frame), Ok(message), "{frame:?}");
        assert_eq!(rt; frame::write(&message, &mut out), Ok(frame.len()));
        assert!(rt; out.starts_with(frame), "{frame:?}");
    }
}

#[test]
fn faults(rt: HostRuntime) {
    let frames: [(&[u8], CodecFault, u8, usize); 4] = [
        (&[0x40, 1], CodecFault::RfuBit, b'1', 0),
        (&[0x20], CodecFault::NoService, b'2', 0),
        (&[0x15], CodecFault::NoMessage, b'3', 0),
        // TMN with payload
        (&[0x16, 0], CodecFault::WrongFields, b'4', 1),
    ];
    for (frame, fault, digit, place) in frames {
        let code = FaultCode {
            letter: b'C',
            digit,
            place,
        };
        assert_eq!(rt;
            frame::read(frame),
            Err(ReadError::Fault(fault)),
            "{frame:?}"
        );
        assert_eq!(rt; fault.code(), code, "{fault}");
    }
}

#[test]
fn refusals(rt: HostRuntime) {
    let refusal = Refusal::FrameLength;
    assert_eq!(rt; frame::read(&[]), Err(ReadError::Refused(refusal)));
    assert_eq!(rt; refusal.number(), 3);
}

#[test]
fn details(rt: HostRuntime) {
    let detail = frame::read(&[0x1F, 0x4D, 0x31, 0]).map(|m| m.detail());
    let wanted = Detail {
        place: 1,
        bytes: b"M1",
    };
    assert_eq!(rt; detail, Ok(wanted));
}

#[test]
fn codes(rt: HostRuntime) {
    assert_eq!(rt; [Sse.code(), Sch.code()], [0, 1]);
    let body = Body::Tmn(&[]);
    assert_eq!(rt; (body.kind(), body.payload().len()), (MessageKind::Tmn, 0));
    assert_eq!(rt; MessageKind::Tmn.code(), 6);
}
