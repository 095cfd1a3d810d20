//! Links, listeners, clocks and crews at work: in memory, and over the loopback of the system.
//!
//! Nothing stands on this crate.
#![tactic(auto)]

#[cfg(test)]
mod clocks;
#[cfg(test)]
mod crews;
#[cfg(test)]
mod links;
#[cfg(test)]
mod listeners;
