//! Tests of the core and of a worker's step, by their public calls alone.
//!
//! Most are rows of calls with what each answers, which one loop runs (`rows`). Beside them runs are made by hand that were
//! begun before another's commit: they have read a world that is gone, and their commit is refused. Nothing stands on this
//! crate.
#![tactic(auto)]

#[cfg(test)]
mod between;
#[cfg(test)]
mod by_hand;
#[cfg(test)]
mod claim_tests;
#[cfg(test)]
mod driving;
#[cfg(test)]
mod durable_tests;
#[cfg(test)]
mod herald;
#[cfg(test)]
mod opening_tests;
#[cfg(test)]
mod row_tests;
#[cfg(test)]
mod rows;
#[cfg(test)]
mod stale_tests;
#[cfg(test)]
mod sword_tests;
#[cfg(test)]
mod twins;
