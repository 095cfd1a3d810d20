//! What the game keeps of a guest.

use dk_refs::{Managed, decode_as};
use dk_types::{Blob, NoMemory};
use dk_wire::{Form, PayloadRefused, Reader, Writer, encode};
use std::alloc::Global;

/// A guest, and how often it came.
#[derive(Debug, Drop, PartialEq, Eq)]
pub struct Guest {
    pub visits: u64,
}

/// The number of visits.
pub struct GuestForm;

impl Form<Guest> for GuestForm {
    ghost use Rattle.dk_demos.specs.Guests.{IsGuest, guest_bytes, next_guest};
    ghost use Rattle.dk_demos.specs.GuestLaws.{each_guest_exact};

    ghost fits = { λ _. IsGuest };

    ghost spelling = { guest_bytes };

    ghost reading = { λ _. next_guest };

    ghost exact = { each_guest_exact };

    fn put(writer: &mut Writer, guest: &Guest) -> Result<(), NoMemory> {
        writer.put_u64(guest.visits)
    }

    #[tactic(auto, unfolding(crate::specs::Guests::next_guest))]
    fn take<'a>(
        _alloc: Global,
        mut reader: Reader<'a>,
        _: Option<&Guest>,
    ) -> Result<(Guest, Reader<'a>), PayloadRefused> {
        let visits = reader.next_u64()?;
        Ok((Guest { visits }, reader))
    }
}

impl Managed for Guest {
    ghost use Rattle.dk_demos.specs.Guests.{IsGuest, guest_bytes, guest_of};
    ghost use Rattle.dk_demos.specs.GuestLaws.{guest_reads};

    const KIND: u16 = 1;

    ghost KIND = { 1 };

    ghost fits = { IsGuest };

    ghost bytes = { guest_bytes };

    ghost of = { guest_of };

    fn encode(&self, alloc: Global) -> Result<Blob, NoMemory> {
        encode::<Guest, GuestForm>(alloc, self)
    }

    #[tactic(auto, unfolding(crate::specs::Guests::guest_of))]
    fn decode(alloc: Global, payload: &Blob) -> Result<Option<Guest>, NoMemory> {
        decode_as::<Guest, GuestForm>(alloc, payload.as_slice())
    }

    ghost exact = { guest_reads };
}

impl Guest {
    ghost use Rattle.std.specs.Prelude.{◌≡◌};
    ghost use Rattle.dk_demos.specs.Guests.{once_more};

    /// The guest after one more visit. At the greatest number it stays.
    pub fn once_more(&self) -> Guest
        ensures { result ≡ once_more self.now }
    {
        Guest {
            visits: self.visits.saturating_add(1),
        }
    }
}
