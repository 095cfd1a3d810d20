//! Listeners.

use crate::links::{put, take};
use dk_edge::{Bells, Listener, MemoryListener, Peer, Sink, Source, TcpListen};
use std::alloc::Global;
use std::io::{Read, Write};
use std::net::{Ipv4Addr, TcpStream};
use std::sync::Arc;
use std::test::*;

// A peer that sends one byte.
fn peer(alloc: Global, byte: u8) -> Result<Peer, Fail> {
    Ok(Peer {
        bytes: [byte].to_vec(alloc)?,
        failing_takes: Vec::new(alloc),
        failing_puts: Vec::new(alloc),
    })
}

#[test]
fn a_listener_gives_its_peers_in_order(rt: HostRuntime) -> Result<(), Fail> {
    let alloc = rt.alloc();
    let peers = vec![in alloc; peer(alloc, 1)?, peer(alloc, 2)?]?;
    let mut listener = MemoryListener::new(alloc, peers, Vec::new(alloc));
    listener.bind(80)?;
    let (first, _) = listener.accept()?.ok_or("a link")?;
    let second = listener.accept_link()?.ok_or("a link")?;
    assert_eq!(rt; first.left(), [1].as_slice());
    assert_eq!(rt; second.source().left(), [2].as_slice());
    Ok(())
}

#[test]
fn a_listener_without_peers_gives_none(rt: HostRuntime) -> Result<(), Fail> {
    let alloc = rt.alloc();
    let mut listener = MemoryListener::new(alloc, Vec::new(alloc), Vec::new(alloc));
    listener.bind(80)?;
    assert!(rt; listener.accept()?.is_none());
    Ok(())
}

#[test]
fn a_listener_fails_at_the_named_call(rt: HostRuntime) -> Result<(), Fail> {
    let alloc = rt.alloc();
    let peers = vec![in alloc; peer(alloc, 1)?]?;
    let mut listener = MemoryListener::new(alloc, peers, [2].to_vec(alloc)?);
    listener.bind(80)?;
    assert!(rt; listener.accept_link().is_err());
    assert_eq!(rt; listener.faults(), 1);
    Ok(())
}

// Ports that nothing else of the repository listens at.
const PAIR_PORT: u16 = 47_811;

const LINK_PORT: u16 = 47_812;

fn bells(alloc: Global) -> Result<Arc<Bells>, Fail> {
    Ok(Arc::new(alloc, Bells::new(alloc)?)?)
}

#[test]
fn a_listener_of_the_system_gives_both_directions(rt: HostRuntime) -> Result<(), Fail> {
    let mut listener = TcpListen::new(&rt, rt.alloc(), bells(rt.alloc())?);
    listener.bind(PAIR_PORT)?;
    let mut client = TcpStream::connect(&rt, (Ipv4Addr::LOCALHOST, PAIR_PORT))?;
    client.write_all(b"look")?;
    let (mut source, mut sink) = listener.accept()?.ok_or("a link")?;
    let mut into = [0; 4];
    assert_eq!(rt; source.take(&mut into), Ok(4));
    assert_eq!(rt; into, *b"look");
    sink.put(b"seen")?;
    client.read_exact(&mut into)?;
    assert_eq!(rt; into, *b"seen");
    assert_eq!(rt; listener.faults() + source.faults() + sink.faults(), 0);
    Ok(())
}

#[test]
fn a_link_of_the_system_waits_for_its_peer(rt: HostRuntime) -> Result<(), Fail> {
    let mut listener = TcpListen::new(&rt, rt.alloc(), bells(rt.alloc())?);
    listener.bind(LINK_PORT)?;
    let mut client = TcpStream::connect(&rt, (Ipv4Addr::LOCALHOST, LINK_PORT))?;
    let mut link = listener.accept_link()?.ok_or("a link")?;
    client.write_all(b"look")?;
    let mut into = [0; 4];
    assert_eq!(rt; take(&rt, &mut link, &mut into)?, Ok(4));
    assert_eq!(rt; into, *b"look");
    assert_eq!(rt; put(&rt, &mut link, b"seen")?, Ok(4));
    client.read_exact(&mut into)?;
    assert_eq!(rt; into, *b"seen");
    Ok(())
}
