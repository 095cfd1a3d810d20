//! Clocks.

use dk_edge::{Clock, FixedClock, SystemClock};
use std::test::*;

// The beginning of 2020, in ms.
const YEAR_2020_MS: u64 = 1_577_836_800_000;

#[test]
fn clocks_tell_their_moments(rt: HostRuntime) {
    let fixed = FixedClock::new(7);
    fixed.pause();
    assert_eq!(rt; fixed.now(), 7);
    let system = SystemClock::new(&rt);
    let before = system.now();
    system.pause();
    assert!(rt; before > YEAR_2020_MS && system.now() >= before);
}
