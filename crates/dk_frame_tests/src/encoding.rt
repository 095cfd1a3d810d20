//! The server's frames.

use dk_frame::encode_out;
use dk_types::limits::BODY_MOST_BYTES;
use dk_types::{Blob, Name, Out};
use std::alloc::Global;
use std::test::*;

// The frame of a message whose body is within the limit.
fn frame(alloc: Global, out: &Out) -> Result<Blob, Fail> {
    match out {
        Out::Message(body) | Out::Channel { body, .. }
            if body.as_slice().len() as u64 > BODY_MOST_BYTES => { Err("too long")? }
        _ => Ok(encode_out(alloc, out)?),
    }
}

#[test]
fn each_message_is_one_frame(rt: HostRuntime) -> Result<(), Fail> {
    let alloc = rt.alloc();
    let look = Blob::copy_of(
        alloc,
        b"You are in a plain room.\nOn the floor: a shiny sword.\n",
    )?;
    let town = Name::new(alloc, b"town")?;
    let body = Blob::copy_of(alloc, b"hi")?;
    for (out, bytes) in [
        (Out::Accepted, b"\x00\x00\x00\x01\x81".as_slice()),
        (Out::Refused, b"\x00\x00\x00\x01\x82".as_slice()),
        (
            Out::Message(look),
            b"\x00\x00\x00\x37\x83You are in a plain room.\nOn the floor: a shiny sword.\n".as_slice(),
        ),
        (
            Out::Channel {
                channel: town,
                body,
            },
            b"\x00\x00\x00\x08\x84\x04townhi".as_slice(),
        ),
        (Out::Close, b"\x00\x00\x00\x01\x85".as_slice()),
    ] {
        assert_eq!(rt; frame(alloc, &out)?.as_slice(), bytes);
    }
    Ok(())
}
