//! Types of managed objects.
ghost use Rattle.std.specs.Prelude.{◌≡◌, None, IfOk};
ghost use Rattle.dk_model.specs.Records.{value_of};

use dk_types::{Blob, NoMemory};
use dk_wire::{Form, PayloadRefused, decode};
use std::alloc::Global;

/// A type of managed object (`ManagedObject`): its kind, and its values as bytes.
pub trait Managed: Drop {
    ghost use Rattle.std.specs.Prelude.{ℕ, List, Option};
    ghost use Rattle.dk_refs.specs.Managing.{ReadsExactly};

    const KIND: u16;

    ghost KIND: { ℕ };

    /// What each value has that is read from bytes: each id has a run below 2^62, each list is shorter than 2^32.
    ghost fits: { Self → Type 0 };

    ghost bytes: { Self → List ℕ };

    /// The value that the bytes are, where they are one.
    ghost of: { List ℕ → Option Self };

    fn encode(&self, alloc: Global) -> Result<Blob, NoMemory>
        ensures { IfOk result (λ payload. payload ≡ bytes self.now) };

    fn decode(alloc: Global, payload: &Blob) -> Result<Option<Self>, NoMemory>
        ensures { IfOk result (λ value. value ≡ of payload.now) };

    /// What decodes is exactly what encodes.
    ghost exact: { ReadsExactly fits bytes of };
}

/// The value that the bytes are in a form, where they are one: `decode` of a type that has a form.
pub fn decode_as<T: Drop, F: Form<T>>(alloc: Global, payload: &[u8]) -> Result<Option<T>, NoMemory>
    ensures { IfOk result (λ value. value ≡ value_of (F.reading None) payload.now) }
{
    match decode::<T, F>(alloc, payload) {
        Ok(value) => Ok(Some(value)),
        Err(PayloadRefused::NotInGrammar { .. }) => Ok(None),
        Err(PayloadRefused::NoMemory) => Err(NoMemory),
    }
}
