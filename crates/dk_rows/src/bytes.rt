//! Bytes as two hexadecimal digits each.

use std::alloc::{AllocError, Global};

/// The digits of the bytes.
pub fn spelled(alloc: Global, bytes: &[u8]) -> Result<String, AllocError> {
    let mut text = String::new(alloc);
    for byte in bytes {
        push_digit(&mut text, byte / 16)?;
        push_digit(&mut text, byte % 16)?;
    }
    Ok(text)
}

fn push_digit(text: &mut String, digit: u8) -> Result<(), AllocError> {
    match char::from_digit(u32::from(digit), 16) {
        Some(digit) => text.push(digit),
        None => Ok(()),
    }
}

/// The bytes of such digits. A `-` between them says nothing, and stands alone for no bytes.
pub fn read(alloc: Global, text: &str) -> Option<Vec<u8>> {
    let mut bytes = Vec::new(alloc);
    let mut high = None;
    for digit in text.chars() {
        if digit == '-' {
            continue;
        }
        let digit = digit.to_digit(16)?;
        match high {
            None => high = Some(digit),
            Some(first) => {
                bytes.push(joined(first, digit)?).ok()?;
                high = None;
            }
        }
    }
    Some(bytes)
}

fn joined(high: u32, low: u32) -> Option<u8> {
    u8::try_from(high.checked_mul(16)?.checked_add(low)?).ok()
}
