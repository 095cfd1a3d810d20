//! The edge of the program: streams, links, listeners, clocks and crews.
//!
//! The layers above are generic over the traits and cite what these say of bytes, links and faults. What stands in memory
//! tells its bytes and fails where a test says so. What stands over the system is a trusted edge: it tells nothing of its
//! bytes, and counts each fault.
#![tactic(auto)]

pub use activity::Activity;
pub use bells::{BELLS_COUNT, Bells};
pub use clock::Clock;
pub use crew::Crew;
pub use fixed_clock::FixedClock;
pub use link::Link;
pub use listener::{Binding, Listener};
pub use memory_link::MemoryLink;
pub use memory_listener::{MemoryListener, Peer};
pub use memory_sink::MemorySink;
pub use memory_source::MemorySource;
pub use no_spawner::NoSpawner;
pub use sink::Sink;
pub use source::Source;
pub use spawner::Spawner;
pub use std_streams::{StdSink, StdSource};
pub use system_clock::SystemClock;
pub use tcp_link::TcpLink;
pub use tcp_listen::{TcpListen, TcpSink, TcpSource};
pub use thread_spawner::ThreadSpawner;

pub mod activity;
pub mod bells;
pub mod clock;
pub mod crew;
pub mod fixed_clock;
pub mod link;
pub mod listener;
pub mod memory_link;
pub mod memory_listener;
pub mod memory_sink;
pub mod memory_source;
pub mod no_spawner;
pub mod sink;
pub mod source;
pub mod spawner;
pub mod std_streams;
pub mod system_clock;
pub mod tcp_link;
pub mod tcp_listen;
pub mod thread_spawner;
