//! Counters, as games keep them and raise them.
ghost use Rattle.std.specs.Prelude.{◌≡◌};
ghost use Rattle.dk_txn.specs.Does.{Does};
ghost use Rattle.dk_game.specs.Halted.{halt_fault};
ghost use Rattle.dk_demos.specs.Raising as rules;

use dk_game::Halt;
use dk_refs::{Managed, ManagedRef, decode_as};
use dk_txn::{Txn, View};
use dk_types::{Blob, Name, NoMemory};
use dk_wire::{Form, PayloadRefused, Reader, Writer, encode};
use std::alloc::Global;

/// A counter, and how often it was raised.
#[derive(Debug, Drop, PartialEq, Eq)]
pub struct Counter {
    pub count: u64,
}

/// The count.
pub struct CounterForm;

impl Form<Counter> for CounterForm {
    ghost use Rattle.dk_demos.specs.Counting.{IsCounter, counter_bytes, next_counter};
    ghost use Rattle.dk_demos.specs.CounterLaws.{each_counter_exact};

    ghost fits = { λ _. IsCounter };

    ghost spelling = { counter_bytes };

    ghost reading = { λ _. next_counter };

    ghost exact = { each_counter_exact };

    fn put(writer: &mut Writer, counter: &Counter) -> Result<(), NoMemory> {
        writer.put_u64(counter.count)
    }

    #[tactic(auto, unfolding(crate::specs::Counting::next_counter))]
    fn take<'a>(
        _alloc: Global,
        mut reader: Reader<'a>,
        _: Option<&Counter>,
    ) -> Result<(Counter, Reader<'a>), PayloadRefused> {
        let count = reader.next_u64()?;
        Ok((Counter { count }, reader))
    }
}

impl Managed for Counter {
    ghost use Rattle.dk_demos.specs.Counting.{IsCounter, counter_bytes, counter_of};
    ghost use Rattle.dk_demos.specs.CounterLaws.{counter_reads};

    const KIND: u16 = 1;

    ghost KIND = { 1 };

    ghost fits = { IsCounter };

    ghost bytes = { counter_bytes };

    ghost of = { counter_of };

    fn encode(&self, alloc: Global) -> Result<Blob, NoMemory> {
        encode::<Counter, CounterForm>(alloc, self)
    }

    #[tactic(auto, unfolding(crate::specs::Counting::counter_of))]
    fn decode(alloc: Global, payload: &Blob) -> Result<Option<Counter>, NoMemory> {
        decode_as::<Counter, CounterForm>(alloc, payload.as_slice())
    }

    ghost exact = { counter_reads };
}

impl Counter {
    ghost use Rattle.dk_demos.specs.Counting.{raised};

    /// The counter raised by one. At the greatest number it stays.
    pub fn raised(&self) -> Counter
        ensures { result ≡ raised self.now }
    {
        Counter {
            count: self.count.saturating_add(1),
        }
    }
}

/// A counter at 0, under a name.
pub fn make_under<V: View>(alloc: Global, txn: &mut Txn<'_, V>, name: &Name) -> Result<(), Halt>
    ensures { Does V.sights halt_fault txn.old txn.new (rules.make_under name.now) result }
{
    let counter = ManagedRef::create(alloc, txn, &Counter { count: 0 })?;
    txn.bind(name, counter.id())?;
    Ok(())
}

/// Raises the counter under a name by one, and answers it as it is then.
pub fn raise_under<V: View>(
    alloc: Global,
    txn: &mut Txn<'_, V>,
    name: &Name,
) -> Result<Counter, Halt>
    ensures { Does V.sights halt_fault txn.old txn.new (rules.raise_under name.now) result }
{
    let place = ManagedRef::<Counter>::of(txn.bound(name)?);
    let counter = place.get_for_update(alloc, txn)?;
    let more = counter.raised();
    place.save(alloc, txn, &more)?;
    Ok(more)
}
