//! Links of a test's own, and two sessions over them.

use crate::hosting::play;
use crate::polled::{BothEnded, TwoPolled};
use dk_edge::{MemoryLink, MemorySink, MemorySource};
use futures::test::MockTask;
use std::alloc::{AllocGlobal, Global};
use std::random::RandomSource;
use std::sync::Wait;
use std::test::Fail;
use sword_world::SwordWorld;

/// How a link behaves: how many bytes it gives and takes at a call, and which call of each kind fails, 0 for none.
#[derive(Clone, Copy, Debug)]
pub(crate) struct Manner {
    pub(crate) take: usize,
    /// How many bytes it takes at a call, where it is not ready before each answer. Else it is always ready, and takes
    /// all bytes.
    pub(crate) put: Option<usize>,
    pub(crate) take_fails: u64,
    pub(crate) put_fails: u64,
}

/// A link that is always ready, and fails at no call.
pub(crate) fn ready(take: usize) -> Manner {
    Manner {
        take,
        put: None,
        take_fails: 0,
        put_fails: 0,
    }
}

/// A link that is not ready before each answer, and fails at no call.
pub(crate) fn waiting(take: usize, put: usize) -> Manner {
    Manner {
        take,
        put: Some(put),
        take_fails: 0,
        put_fails: 0,
    }
}

/// A link of this manner that gives these bytes.
pub(crate) fn link(alloc: Global, stream: &[u8], manner: Manner) -> Result<MemoryLink, Fail> {
    let source = MemorySource::in_pieces(
        Vec::from_slice(alloc, stream)?,
        [manner.take_fails].to_vec(alloc)?,
        manner.take.max(1),
    );
    let sink = MemorySink::new(alloc, [manner.put_fails].to_vec(alloc)?);
    Ok(match manner.put {
        Some(put) => MemoryLink::waiting(source, sink, put.max(1)),
        None => MemoryLink::new(source, sink),
    })
}

/// Two sessions in SwordWorld, polled by turns or one after the other.
pub(crate) fn polled<R: Wait + RandomSource>(
    rt: &R,
    first: MemoryLink,
    second: MemoryLink,
    together: bool,
) -> Result<BothEnded, Fail>
where
    R: AllocGlobal,
{
    let scene = TwoPolled {
        task: MockTask::new(rt)?,
        first,
        second,
        together,
    };
    play(rt, rt.alloc(), &SwordWorld::new(), false, scene)
}
