//! Bytes that rows name, and files that are put together of them.

use dk_rows::{Words, bytes};
use std::alloc::Global;

/// Pieces of bytes by their names.
#[derive(Drop)]
pub struct Pieces {
    pieces: Vec<(String, Vec<u8>)>,
}

impl Pieces {
    /// None.
    pub fn new(alloc: Global) -> Pieces {
        Pieces {
            pieces: Vec::new(alloc),
        }
    }

    /// `piece NAME FILE`: these bytes get a name.
    pub fn add(&mut self, alloc: Global, call: &mut Words<'_>) -> Option<String> {
        let name = String::from_str(alloc, call.word()?).ok()?;
        let bytes = self.next(alloc, call)?;
        self.pieces.push((name, bytes)).ok()?;
        Some(String::new(alloc))
    }

    /// The file of the next word: parts with `+` between them, each a piece's name or bytes in hexadecimal digits, and `00*64` for so
    /// many of them. Behind each `@` stands a place and the byte there, as in `first@64:00`.
    pub fn next(&self, alloc: Global, call: &mut Words<'_>) -> Option<Vec<u8>> {
        let word = call.word()?;
        let Some((word, changes)) = word.split_once("@") else {
            return self.file(alloc, word);
        };
        let mut file = self.file(alloc, word)?;
        for change in changes.split("@") {
            let (at, byte) = change.split_once(":")?;
            *file.get_mut(at.parse::<usize>().ok()?)? = u8::from_str_radix(byte, 16).ok()?;
        }
        Some(file)
    }

    fn file(&self, alloc: Global, word: &str) -> Option<Vec<u8>> {
        let mut file = Vec::new(alloc);
        for part in word.split("+") {
            self.put(alloc, &mut file, part)?;
        }
        Some(file)
    }

    fn put(&self, alloc: Global, file: &mut Vec<u8>, part: &str) -> Option<()> {
        let (part, times) = part.split_once("*").unwrap_or((part, "1"));
        let piece = self.piece(alloc, part)?;
        for _ in 0..times.parse::<usize>().ok()? {
            file.extend_from_slice(&piece).ok()?;
        }
        Some(())
    }

    /// A copy of the piece of this name, or the bytes of these digits.
    fn piece(&self, alloc: Global, word: &str) -> Option<Vec<u8>> {
        for (name, piece) in &self.pieces {
            if name.as_str() == word {
                return Vec::from_slice(alloc, piece).ok();
            }
        }
        bytes::read(alloc, word)
    }

    /// A copy of the piece whose name has this number at its end, as `image-2`.
    pub fn numbered(&self, alloc: Global, word: &str, number: u64) -> Option<Vec<u8>> {
        let name = format!(in alloc; "{word}-{number}").ok()?;
        self.piece(alloc, name.as_str())
    }
}
