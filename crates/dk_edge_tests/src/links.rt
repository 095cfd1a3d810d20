//! Links, polled until they are ready.

use dk_edge::{Link, MemoryLink, MemorySink, MemorySource};
use dk_types::Failed;
use futures::executor::block_on;
use futures::future::poll_fn;
use std::alloc::{AllocGlobal, Global};
use std::random::RandomSource;
use std::sync::Wait;
use std::test::*;

// A link that waits, over five bytes, which puts at most `piece` bytes at a call.
fn waiting(alloc: Global, failing: u64, piece: usize) -> Result<MemoryLink, Fail> {
    if piece == 0 {
        return Err("a piece has a byte")?;
    }
    let source = MemorySource::in_pieces(
        [1, 2, 3, 4, 5].to_vec(alloc)?,
        [failing].to_vec(alloc)?,
        piece,
    );
    let mut sink = MemorySink::new(alloc, [failing].to_vec(alloc)?);
    sink.reserve(100)?;
    Ok(MemoryLink::waiting(source, sink, piece))
}

// Takes once, when the link is ready.
pub(crate) fn take<R: Wait + RandomSource, L: Link>(
    rt: &R,
    link: &mut L,
    into: &mut [u8; 4],
) -> Result<Result<usize, Failed>, Fail>
where
    R: AllocGlobal,
{
    Ok(block_on(rt, poll_fn(|context| link.poll_take(context, into)))?)
}

// Puts once, when the link is ready.
pub(crate) fn put<R: Wait + RandomSource, L: Link>(
    rt: &R,
    link: &mut L,
    bytes: &[u8],
) -> Result<Result<usize, Failed>, Fail>
where
    R: AllocGlobal,
{
    Ok(block_on(rt, poll_fn(|context| link.poll_put(context, bytes)))?)
}

#[test]
fn a_waiting_link_loses_no_byte(rt: HostRuntime) -> Result<(), Fail> {
    for piece in 1..=5 {
        for failing in 0..=6 {
            let mut link = waiting(rt.alloc(), failing, piece)?;
            for _ in 0..7 {
                let mut into = [0; 4];
                if let Ok(count) = take(&rt, &mut link, &mut into)? {
                    let _ = put(&rt, &mut link, &into[..count.min(4)])?;
                }
            }
            assert_eq!(rt; link.source().left(), b"".as_slice());
        }
    }
    Ok(())
}
