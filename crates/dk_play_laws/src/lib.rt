//! Laws of plays: what the fronts of several passes tell of the one history that they share.
//!
//! A script is played by one pass, which enters its lines and hands messages, and by workers, which run jobs between. No
//! pass sees what the others enter before it meets them. What they know together makes the phases of a play: the lines,
//! the claims and commits in the order in which they came, and what was handed. Nothing here runs.
#![tactic(auto)]

pub mod plays;
