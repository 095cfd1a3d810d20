//! Bytes and answers as texts.

use std::alloc::{AllocError, Global};

/// Puts last each byte as a digit, and 255 as `f`.
pub fn push_bytes(text: &mut String, bytes: &[u8]) -> Result<(), AllocError> {
    for byte in bytes {
        text.push(if *byte < 10 {
            char::from(b'0' + *byte)
        } else {
            'f'
        })?;
    }
    Ok(())
}

/// Puts bytes last as characters.
pub fn push_letters(text: &mut String, bytes: &[u8]) -> Result<(), AllocError> {
    for byte in bytes {
        text.push(char::from(*byte))?;
    }
    Ok(())
}

/// A copy of a text, if there is memory.
pub fn text(alloc: Global, text: &str) -> Option<String> {
    String::from_str(alloc, text).ok()
}
