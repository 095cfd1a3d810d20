//! Sessions on the wire: clients' streams with what they give, whole and in pieces, and the server's frames.
//!
//! The rows are data, and a loop runs them. Nothing stands on this crate.
#![tactic(auto)]

#[cfg(test)]
mod decoding;
#[cfg(test)]
mod encoding;
#[cfg(test)]
mod reading;
