//! Texts of rows: `\s` is a space, `\n` the end of a line, `\t` a tabulator, `\r` a return and `\d` the delete.

use dk_types::Blob;
use std::alloc::{AllocError, Global};

/// The bytes of such a text.
pub fn bytes_of(alloc: Global, text: &str) -> Result<Vec<u8>, AllocError> {
    let mut bytes = Vec::new(alloc);
    let mut is_escaped = false;
    for byte in text.as_bytes() {
        if *byte == b'\\' && !is_escaped {
            is_escaped = true;
        } else {
            let meant = if is_escaped { meant_by(*byte) } else { *byte };
            bytes.push(meant)?;
            is_escaped = false;
        }
    }
    Ok(bytes)
}

fn meant_by(letter: u8) -> u8 {
    match letter {
        b's' => b' ',
        b'n' => b'\n',
        b't' => b'\t',
        b'r' => b'\r',
        b'd' => 0x7F,
        other => other,
    }
}

/// The same as a body.
pub fn body(alloc: Global, text: &str) -> Option<Blob> {
    Some(Blob::from_vec(bytes_of(alloc, text).ok()?))
}

/// The text of bytes, in which the end of a line is `\n` and a backslash stands twice.
pub fn shown(alloc: Global, bytes: &[u8]) -> Option<String> {
    let mut text = String::new(alloc);
    for byte in bytes {
        match byte {
            b'\n' => text.push_str("\\n").ok()?,
            b'\\' => text.push_str("\\\\").ok()?,
            _ => text.push(char::from(*byte)).ok()?,
        }
    }
    Some(text)
}

/// A copy of a text, if there is memory.
pub fn text(alloc: Global, text: &str) -> Option<String> {
    String::from_str(alloc, text).ok()
}

/// A fact, as rows have it.
pub fn said(alloc: Global, is: bool) -> Option<String> {
    text(alloc, if is { "yes" } else { "no" })
}
