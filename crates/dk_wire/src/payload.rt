//! Reading a payload of fields, where a fault is told by its place alone.
ghost use Rattle.std.specs.Prelude.{◌≡◌, ◌≢◌, Ok, IfErr, MatchResult};
ghost use Rattle.dk_wire.specs.declared.payload.PayloadRefused.TheVariants.{NoMemory as OutOfMemory};
ghost use Rattle.dk_types.specs.Payload.{next_u8, next_u16, next_u32, next_u64, next_name, next_blob, next_id, next_key, next_end};
ghost use Rattle.dk_wire.specs.Payload.{Gives, Misses, located};

use crate::reader::Reader;
use dk_types::{Blob, Name, NoMemory, ObjectId, TaskKey, WireRefused};
use std::alloc::{AllocError, AllocFailed, Global};
use thiserror::Error;

/// Why a payload is no spelling of a value.
#[derive(Clone, Copy, Debug, PartialEq, Eq, Error)]
pub enum PayloadRefused {
    /// `at` is the place of the first byte of the first field that is cut off, is outside its form or limit, does not
    /// ascend, or breaks a rule with an earlier field; or of the first byte behind the whole spelling.
    #[error("no spelling of a value, at byte {at}")]
    NotInGrammar { at: u64 },
    #[error("out of memory")]
    NoMemory,
}

impl From<NoMemory> for PayloadRefused {
    ghost from_gives = { λ _ e. e ≡ OutOfMemory };

    fn from(_: NoMemory) -> PayloadRefused {
        PayloadRefused::NoMemory
    }
}

impl From<AllocError> for PayloadRefused {
    ghost from_gives = { λ _ e. e ≡ OutOfMemory };

    fn from(_: AllocError) -> PayloadRefused {
        PayloadRefused::NoMemory
    }
}

impl<T: Drop> From<AllocFailed<T>> for PayloadRefused {
    ghost from_gives = { λ _ e. e ≡ OutOfMemory };

    fn from(_: AllocFailed<T>) -> PayloadRefused {
        PayloadRefused::NoMemory
    }
}

/// Each call is the `take` of its name, and its refusal tells where the field stands, which is where the reader still is.
impl<'a> Reader<'a> {
    /// The next byte.
    pub fn next_u8(&mut self) -> Result<u8, PayloadRefused>
        ensures gives { Gives next_u8 self.old result self.new }
        ensures memory { IfErr result (λ e. e ≢ PayloadRefused.NoMemory) }
    {
        let at = self.at();
        located(at, self.read_u8())
    }

    /// The next number of 16 bits.
    pub fn next_u16(&mut self) -> Result<u16, PayloadRefused>
        ensures gives { Gives next_u16 self.old result self.new }
        ensures memory { IfErr result (λ e. e ≢ PayloadRefused.NoMemory) }
    {
        let at = self.at();
        located(at, self.read_u16())
    }

    /// The next number of 32 bits.
    pub fn next_u32(&mut self) -> Result<u32, PayloadRefused>
        ensures gives { Gives next_u32 self.old result self.new }
        ensures memory { IfErr result (λ e. e ≢ PayloadRefused.NoMemory) }
    {
        let at = self.at();
        located(at, self.read_u32())
    }

    /// The next number of 64 bits.
    pub fn next_u64(&mut self) -> Result<u64, PayloadRefused>
        ensures gives { Gives next_u64 self.old result self.new }
        ensures memory { IfErr result (λ e. e ≢ PayloadRefused.NoMemory) }
    {
        let at = self.at();
        located(at, self.read_u64())
    }

    /// The next name.
    pub fn next_name(&mut self, alloc: Global) -> Result<Name, PayloadRefused>
        ensures { Gives next_name self.old result self.new }
    {
        let at = self.at();
        located(at, self.read_name(alloc))
    }

    /// The next bytes with their length, which is at most this.
    pub fn next_blob(&mut self, alloc: Global, most: u32) -> Result<Blob, PayloadRefused>
        ensures { Gives (next_blob most) self.old result self.new }
    {
        let at = self.at();
        located(at, self.read_blob(alloc, most))
    }

    /// The next object's id.
    pub fn next_id(&mut self) -> Result<ObjectId, PayloadRefused>
        ensures gives { Gives next_id self.old result self.new }
        ensures memory { IfErr result (λ e. e ≢ PayloadRefused.NoMemory) }
    {
        let at = self.at();
        located(at, self.read_id())
    }

    /// The key of a task, which has the form of an id.
    #[tactic(auto, unfolding(dk_types::specs::Payload::next_key))]
    pub fn next_key(&mut self) -> Result<TaskKey, PayloadRefused>
        ensures gives { Gives next_key self.old result self.new }
        ensures memory { IfErr result (λ e. e ≢ PayloadRefused.NoMemory) }
    {
        let id = self.next_id()?;
        Ok(TaskKey {
            run: id.run,
            k: id.k,
        })
    }

    /// Refuses the place where bytes are left. Takes no memory.
    #[tactic(auto, unfolding(dk_types::specs::Payload::next_end, dk_types::specs::Reading::end_at))]
    pub fn next_end(&self) -> Result<(), PayloadRefused>
        ensures gives { MatchResult result (λ done. next_end self.now ≡ Ok done) (λ e. Misses e (next_end self.now)) }
        ensures memory { IfErr result (λ e. e ≢ PayloadRefused.NoMemory) }
    {
        match self.end() {
            Ok(()) => Ok(()),
            Err(_) => Err(PayloadRefused::NotInGrammar { at: self.at() }),
        }
    }
}

fn located<T>(at: u64, taken: Result<T, WireRefused>) -> Result<T, PayloadRefused>
    ensures { result ≡ located at taken }
{
    match taken {
        Ok(x) => Ok(x),
        Err(WireRefused::NoMemory) => Err(PayloadRefused::NoMemory),
        Err(_) => Err(PayloadRefused::NotInGrammar { at }),
    }
}
