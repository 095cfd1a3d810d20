//! Managed objects.

use crate::blob::Blob;

/// A managed object: its kind, which the game chooses, and its bytes. Kinds from 0xFF00 on are the platform's.
#[derive(Clone, Debug, Drop, PartialEq, Eq)]
pub struct Object {
    pub kind: u16,
    pub bytes: Blob,
}
