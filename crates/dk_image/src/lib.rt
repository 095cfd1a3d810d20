//! The image of a durable world as bytes.
//!
//! A checkpoint begins a file with the image of the whole world. `encode_image` writes it and `decode_image` reads it
//! again, in the format that the store's header names; bytes that are no image are told by their first wrong place.
//! Whether the world is valid is not asked here.
#![tactic(auto)]

pub use dk_wire::PayloadRefused as ImageFault;
pub use images::{ImageForm, decode_image, encode_image};
pub use refused::ImageRefused;

pub mod images;
pub mod laws;
pub mod refused;
