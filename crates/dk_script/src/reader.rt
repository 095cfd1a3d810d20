//! A script, read line by line.
ghost use Rattle.std.specs.Prelude.{◌≡◌, ◌∷◌, ◌++◌, [], true, false, IfOk, OnOk, IsErrOf};
ghost use Rattle.std.specs.FinSet as sets;
ghost use Rattle.dk_model.specs.declared.script.Line.TheVariants as said_line;
ghost use Rattle.dk_model.specs.Scripts.{IsLineName, IsOutside};
ghost use Rattle.dk_script.specs.Reading.{Reads, names_of, phases_of};

use crate::lines::Spoken;
use crate::script::Script;
use dk_model::Line;
use dk_types::{Blob, Listed, Name, NameRefused, NoMemory};
use std::alloc::{AllocFailed, Global};
use std::collections::BTreeSet;

/// Why a line is not read.
#[derive(Clone, Copy)]
pub(crate) enum LineRefused {
    /// It is no line of a script, or its name means no connection.
    Outside,
    NoMemory,
}

impl From<NoMemory> for LineRefused {
    ghost use Rattle.std.specs.Prelude.{◌≡◌};
    ghost use Rattle.dk_script.specs.declared.reader.LineRefused.TheVariants.{NoMemory as no_memory};

    ghost from_gives = { λ _ e. e ≡ no_memory };

    fn from(_: NoMemory) -> Self {
        LineRefused::NoMemory
    }
}

impl<T: Drop> From<AllocFailed<T>> for LineRefused {
    ghost use Rattle.std.specs.Prelude.{◌≡◌};
    ghost use Rattle.dk_script.specs.declared.reader.LineRefused.TheVariants.{NoMemory as no_memory};

    ghost from_gives = { λ _ e. e ≡ no_memory };

    fn from(_: AllocFailed<T>) -> Self {
        LineRefused::NoMemory
    }
}

/// The phases that have ended, the lines of the one that has not, and the names that mean a connection.
#[derive(Drop)]
pub(crate) struct Reader {
    ended: Vec<Listed<Line>>,
    lines: Vec<Line>,
    names: BTreeSet<Name>,
}

impl Reader {
    pub(crate) fn new(alloc: Global) -> Reader
        ensures ended { result.ended.items ≡ [] }
        ensures lines { result.lines.items ≡ [] }
        ensures names { names_of result ≡ sets.empty }
    {
        Reader {
            ended: Vec::new(alloc),
            lines: Vec::new(alloc),
            names: BTreeSet::new(alloc),
        }
    }

    /// Reads the next line. A reader that has refused one is of no further use.
    pub(crate) fn read(&mut self, alloc: Global, line: &[u8]) -> Result<(), LineRefused>
        ensures ok { OnOk result (Reads self.old line.now self.new) }
        ensures refused { IsErrOf result LineRefused.Outside → IsOutside (names_of self.old) line.now }
    {
        match Spoken::of(line) {
            None => Err(LineRefused::Outside),
            Some(Spoken::PassedOver) => Ok(()),
            Some(Spoken::Sync) => Ok(self.end_phase(alloc)?),
            Some(Spoken::Login { name }) => Ok(self.log_in(alloc, name)?),
            Some(Spoken::Send { name, text }) => self.send(alloc, name, text),
            Some(
                Spoken::Channel {
                    name,
                    channel,
                    text,
                },
            ) => self.send_on(alloc, name, channel, text),
            Some(Spoken::Logout { name }) => self.log_out(alloc, name),
            Some(Spoken::Drop { name }) => self.drop_out(alloc, name),
            Some(Spoken::Tick { moment }) => Ok(self.tick(moment)?),
        }
    }

    /// The script of the phases; the last ends here.
    pub(crate) fn into_script(mut self, alloc: Global) -> Result<Script, NoMemory>
        ensures { IfOk result (λ s. s.phases ≡ phases_of self) }
    {
        self.end_phase(alloc)?;
        let Reader { ended, .. } = self;
        Ok(Script {
            phases: Listed::from_vec(ended),
        })
    }

    fn end_phase(&mut self, alloc: Global) -> Result<(), NoMemory>
        ensures ended { OnOk result (self.new.ended.items ≡ phases_of self.old) }
        ensures lines { OnOk result (self.new.lines.items ≡ []) }
        ensures names { OnOk result (self.new.names ≡ self.old.names) }
    {
        let lines = std::mem::replace(&mut self.lines, Vec::new(alloc));
        self.ended.push(Listed::from_vec(lines))?;
        Ok(())
    }

    /// The name, if it means a connection.
    fn meant(&self, alloc: Global, name: &[u8]) -> Result<Name, LineRefused>
        requires { IsLineName name.now }
        ensures same { IfOk result (λ meant. meant ≡ name.now) }
        ensures known { IfOk result (λ _. sets.contains (names_of self.now) name.now ≡ true) }
        ensures refused { IsErrOf result LineRefused.Outside → sets.contains (names_of self.now) name.now ≡ false }
    {
        let name = copied_name(alloc, name)?;
        if self.knows(&name) {
            Ok(name)
        } else {
            Err(LineRefused::Outside)
        }
    }

    fn knows(&self, name: &Name) -> bool
        ensures { result ≡ sets.contains (names_of self.now) name.now }
    {
        self.names.contains(name)
    }

    fn log_in(&mut self, alloc: Global, name: &[u8]) -> Result<(), NoMemory>
        requires { IsLineName name.now }
        ensures ended { OnOk result (self.new.ended ≡ self.old.ended) }
        ensures lines { OnOk result (self.new.lines.items ≡ self.old.lines.items ++ said_line.Login name.now ∷ []) }
        ensures names { OnOk result (names_of self.new ≡ sets.insert (names_of self.old) name.now) }
    {
        let name = copied_name(alloc, name)?;
        self.names.insert(name.clone()?)?;
        self.lines.push(Line::Login { name })?;
        Ok(())
    }

    fn send(&mut self, alloc: Global, name: &[u8], text: &[u8]) -> Result<(), LineRefused>
        requires { IsLineName name.now }
        ensures ended { OnOk result (self.new.ended ≡ self.old.ended) }
        ensures lines { OnOk result (self.new.lines.items ≡ self.old.lines.items ++ said_line.Send name.now text.now ∷ []) }
        ensures names { OnOk result (self.new.names ≡ self.old.names) }
        ensures known { OnOk result (sets.contains (names_of self.old) name.now ≡ true) }
        ensures refused { IsErrOf result LineRefused.Outside → sets.contains (names_of self.old) name.now ≡ false }
    {
        let name = self.meant(alloc, name)?;
        let text = Blob::copy_of(alloc, text)?;
        self.lines.push(Line::Send { name, text })?;
        Ok(())
    }

    fn send_on(
        &mut self,
        alloc: Global,
        name: &[u8],
        channel: &[u8],
        text: &[u8],
    ) -> Result<(), LineRefused>
        requires name { IsLineName name.now }
        requires channel { IsLineName channel.now }
        ensures ended { OnOk result (self.new.ended ≡ self.old.ended) }
        ensures lines { OnOk result (self.new.lines.items ≡ self.old.lines.items ++ said_line.Channel name.now channel.now text.now ∷ []) }
        ensures names { OnOk result (self.new.names ≡ self.old.names) }
        ensures known { OnOk result (sets.contains (names_of self.old) name.now ≡ true) }
        ensures refused { IsErrOf result LineRefused.Outside → sets.contains (names_of self.old) name.now ≡ false }
    {
        let name = self.meant(alloc, name)?;
        let channel = copied_name(alloc, channel)?;
        let text = Blob::copy_of(alloc, text)?;
        self.lines.push(Line::Channel {
            name,
            channel,
            text,
        })?;
        Ok(())
    }

    /// The name, which means no connection any more.
    fn leave(&mut self, alloc: Global, name: &[u8]) -> Result<Name, LineRefused>
        requires { IsLineName name.now }
        ensures same { IfOk result (λ left. left ≡ name.now) }
        ensures rest { self.new ≡ record (self.old) { names = self.new.names } }
        ensures names { OnOk result (names_of self.new ≡ sets.remove (names_of self.old) name.now) }
        ensures known { OnOk result (sets.contains (names_of self.old) name.now ≡ true) }
        ensures refused { IsErrOf result LineRefused.Outside → sets.contains (names_of self.old) name.now ≡ false }
    {
        let name = self.meant(alloc, name)?;
        self.names.remove(&name);
        Ok(name)
    }

    fn log_out(&mut self, alloc: Global, name: &[u8]) -> Result<(), LineRefused>
        requires { IsLineName name.now }
        ensures ended { OnOk result (self.new.ended ≡ self.old.ended) }
        ensures lines { OnOk result (self.new.lines.items ≡ self.old.lines.items ++ said_line.Logout name.now ∷ []) }
        ensures names { OnOk result (names_of self.new ≡ sets.remove (names_of self.old) name.now) }
        ensures known { OnOk result (sets.contains (names_of self.old) name.now ≡ true) }
        ensures refused { IsErrOf result LineRefused.Outside → sets.contains (names_of self.old) name.now ≡ false }
    {
        let name = self.leave(alloc, name)?;
        self.lines.push(Line::Logout { name })?;
        Ok(())
    }

    fn drop_out(&mut self, alloc: Global, name: &[u8]) -> Result<(), LineRefused>
        requires { IsLineName name.now }
        ensures ended { OnOk result (self.new.ended ≡ self.old.ended) }
        ensures lines { OnOk result (self.new.lines.items ≡ self.old.lines.items ++ said_line.Drop name.now ∷ []) }
        ensures names { OnOk result (names_of self.new ≡ sets.remove (names_of self.old) name.now) }
        ensures known { OnOk result (sets.contains (names_of self.old) name.now ≡ true) }
        ensures refused { IsErrOf result LineRefused.Outside → sets.contains (names_of self.old) name.now ≡ false }
    {
        let name = self.leave(alloc, name)?;
        self.lines.push(Line::Drop { name })?;
        Ok(())
    }

    fn tick(&mut self, moment: u64) -> Result<(), NoMemory>
        ensures ended { OnOk result (self.new.ended ≡ self.old.ended) }
        ensures lines { OnOk result (self.new.lines.items ≡ self.old.lines.items ++ said_line.Tick moment ∷ []) }
        ensures names { OnOk result (self.new.names ≡ self.old.names) }
    {
        self.lines.push(Line::Tick { moment })?;
        Ok(())
    }
}

fn copied_name(alloc: Global, bytes: &[u8]) -> Result<Name, NoMemory>
    requires { IsLineName bytes.now }
    ensures { IfOk result (λ name. name ≡ bytes.now) }
{
    match Name::new(alloc, bytes) {
        Ok(name) => Ok(name),
        Err(NameRefused::NoMemory) => Err(NoMemory),
        Err(NameRefused::Empty) => unreachable!(),
        Err(NameRefused::TooLong { .. }) => unreachable!(),
        Err(NameRefused::NotUtf8 { .. }) => unreachable!(),
    }
}
