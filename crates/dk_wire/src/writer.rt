//! Putting fields at the end.
ghost use Rattle.std.specs.Prelude.{◌≡◌, ◌<◌, ◌≤◌, ◌^◌, ◌++◌, [], length, IfOk, OnOk, OnErr};
ghost use Rattle.dk_types.specs.Fields.{u8_spelling, u16_spelling, u32_spelling, u64_spelling, name_spelling, blob_spelling, id_spelling, key_spelling};

use byteorder::{BigEndian, ByteOrder};
use dk_types::{Blob, Name, NoMemory, ObjectId, TaskKey};
use std::alloc::Global;
use std::marker::Model;

/// Puts fields at the end of bytes. Where there is no memory, the bytes stay as they were.
#[derive(Debug, Drop)]
pub struct Writer {
    out: Vec<u8>,
}

impl Model for Writer {
    ghost use Rattle.std.specs.Prelude.{ℕ, List};

    ghost Value = { List ℕ };

    ghost view = { λ w. w.out.items };
}

impl Writer {
    /// A writer that has put nothing. Takes no memory.
    pub fn new(alloc: Global) -> Writer
        ensures { result ≡ [] }
    {
        Writer {
            out: Vec::new(alloc),
        }
    }

    /// A writer that has put nothing, with room for so many bytes.
    pub fn with_capacity(alloc: Global, bytes: usize) -> Result<Writer, NoMemory>
        ensures { IfOk result (λ writer. writer ≡ []) }
    {
        Ok(Writer {
            out: Vec::with_capacity(alloc, bytes)?,
        })
    }

    /// The bytes that were put, handed over as they are.
    pub fn finish(self) -> Blob
        ensures { result ≡ self }
    {
        let Writer { out } = self;
        Blob::from_vec(out)
    }

    /// The same as a `Vec`.
    pub fn into_vec(self) -> Vec<u8>
        ensures { result.items ≡ self }
    {
        let Writer { out } = self;
        out
    }

    /// Appends a byte.
    #[tactic(auto, unfolding(dk_types::specs::Fields::u8_spelling))]
    pub fn put_u8(&mut self, value: u8) -> Result<(), NoMemory>
        ensures ok { OnOk result (self.new ≡ self.old ++ u8_spelling value) }
        ensures err { OnErr result (self.new ≡ self.old) }
    {
        self.out.push(value)?;
        Ok(())
    }

    /// Appends a number of 16 bits.
    #[tactic(auto, unfolding(dk_types::specs::Fields::u16_spelling))]
    pub fn put_u16(&mut self, value: u16) -> Result<(), NoMemory>
        ensures ok { OnOk result (self.new ≡ self.old ++ u16_spelling value) }
        ensures err { OnErr result (self.new ≡ self.old) }
    {
        let mut bytes = [0; 2];
        BigEndian::write_u16(&mut bytes, value);
        self.out.extend_from_slice(&bytes)?;
        Ok(())
    }

    /// Appends a number of 32 bits.
    #[tactic(auto, unfolding(dk_types::specs::Fields::u32_spelling))]
    pub fn put_u32(&mut self, value: u32) -> Result<(), NoMemory>
        ensures ok { OnOk result (self.new ≡ self.old ++ u32_spelling value) }
        ensures err { OnErr result (self.new ≡ self.old) }
    {
        let mut bytes = [0; 4];
        BigEndian::write_u32(&mut bytes, value);
        self.out.extend_from_slice(&bytes)?;
        Ok(())
    }

    /// Puts the number of a list's items: its low 32 bits, which are all of it below 2^32.
    #[tactic(auto, unfolding(dk_types::specs::Fields::u32_spelling))]
    pub(crate) fn put_count(&mut self, count: u64) -> Result<(), NoMemory>
        ensures ok { OnOk result (self.new ≡ self.old ++ u32_spelling count) }
        ensures err { OnErr result (self.new ≡ self.old) }
    {
        let mut bytes = [0; 8];
        BigEndian::write_u64(&mut bytes, count);
        self.out.extend_from_slice(&bytes[4..])?;
        Ok(())
    }

    /// Appends a number of 64 bits.
    #[tactic(auto, unfolding(dk_types::specs::Fields::u64_spelling))]
    pub fn put_u64(&mut self, value: u64) -> Result<(), NoMemory>
        ensures ok { OnOk result (self.new ≡ self.old ++ u64_spelling value) }
        ensures err { OnErr result (self.new ≡ self.old) }
    {
        let mut bytes = [0; 8];
        BigEndian::write_u64(&mut bytes, value);
        self.out.extend_from_slice(&bytes)?;
        Ok(())
    }

    /// Appends a name, behind its length.
    #[tactic(auto, unfolding(dk_types::specs::Fields::name_spelling))]
    pub fn put_name(&mut self, value: &Name) -> Result<(), NoMemory>
        ensures ok { OnOk result (self.new ≡ self.old ++ name_spelling value.now) }
        ensures err { OnErr result (self.new ≡ self.old) }
    {
        let name = value.as_slice();
        append_both(&mut self.out, &[name.len() as u8], name)
    }

    /// Puts the blob, whose length is its low 32 bits where it has more bytes.
    #[tactic(auto, unfolding(dk_types::specs::Fields::blob_spelling, dk_types::specs::Fields::u32_spelling))]
    pub fn put_blob(&mut self, value: &Blob) -> Result<(), NoMemory>
        ensures ok { OnOk result (self.new ≡ self.old ++ blob_spelling value.now) }
        ensures err { OnErr result (self.new ≡ self.old) }
    {
        let blob = value.as_slice();
        let mut len = [0; 8];
        BigEndian::write_u64(&mut len, blob.len() as u64);
        append_both(&mut self.out, &len[4..], blob)
    }

    /// Appends an object's id.
    #[tactic(auto, unfolding(dk_types::specs::Fields::id_spelling, dk_types::specs::Fields::u64_spelling, dk_types::specs::Fields::u32_spelling))]
    pub fn put_id(&mut self, value: ObjectId) -> Result<(), NoMemory>
        ensures ok { OnOk result (self.new ≡ self.old ++ id_spelling value) }
        ensures err { OnErr result (self.new ≡ self.old) }
    {
        let mut bytes = [0; 12];
        BigEndian::write_u64(&mut bytes, value.run.0);
        BigEndian::write_u32(&mut bytes[8..], value.k);
        self.out.extend_from_slice(&bytes)?;
        Ok(())
    }

    /// Puts the key of a task, which has the form of an id.
    #[tactic(auto, unfolding(dk_types::specs::Fields::key_spelling))]
    pub fn put_key(&mut self, value: TaskKey) -> Result<(), NoMemory>
        ensures ok { OnOk result (self.new ≡ self.old ++ key_spelling value) }
        ensures err { OnErr result (self.new ≡ self.old) }
    {
        self.put_id(ObjectId {
            run: value.run,
            k: value.k,
        })
    }
}

// Appends both or, where there is no memory, nothing.
fn append_both(out: &mut Vec<u8>, front: &[u8], back: &[u8]) -> Result<(), NoMemory>
    requires { length front.now ≤ 255 }
    ensures ok { OnOk result (out.new.items ≡ out.old.items ++ front.now ++ back.now) }
    ensures err { OnErr result (out.new.items ≡ out.old.items) }
{
    out.reserve(front.len() + back.len())?;
    out.extend_from_slice(front)?;
    out.extend_from_slice(back)?;
    Ok(())
}
