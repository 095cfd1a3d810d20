//! What a run in its midst has read and written.
ghost use Rattle.std.specs.Prelude.{◌≡◌, ◌+◌, ◌<◌, ◌≤◌, ◌++◌, ◌∷◌, [], Some, length, map as each, OnOk, OnErr, IfOk, IfSome, IfNone};
ghost use Rattle.std.specs.FinMap as map;
ghost use Rattle.std.specs.Option.{option_copied};
ghost use Rattle.dk_types.specs.Names.{bytes_cmp};
ghost use Rattle.dk_types.specs.declared.item.Item.TheVariants as ask;
ghost use Rattle.dk_types.specs.declared.limits.TheConstants.{MOMENT_MOST_MS};
ghost use Rattle.dk_overlay.specs.Asked.{WasRead, WasNotRead, WasAnswered, IsOnce};
ghost use Rattle.dk_overlay.specs.Binding.{is_bound_after};
ghost use Rattle.dk_overlay.specs.Changes.{settled};
ghost use Rattle.dk_overlay.specs.NetChanges.{net_of, net_changes};
ghost use Rattle.dk_overlay.specs.Least.{Least};
ghost use Rattle.dk_overlay.specs.ReadsAndWrites.{nothing_done, reading, new_id, creating, changing_object, changing_objects, changing_name, new_key, scheduling, removing_task, moving_task, sending, without_changes};

use crate::change::{Change, Scheduled};
use crate::names::NameChanges;
use crate::objects::ObjectChanges;
use crate::reads::Reads;
use crate::tasks::TaskChanges;
use dk_types::{
    Answer, ConnNo, Effects, Item, Listed, Mode, Name, NoMemory, Object, ObjectId, Out, Read,
    RunNo, TaskKey,
};
use std::alloc::Global;
use std::marker::Model;

/// What a run has read and changed so far. Each call that is refused changes nothing.
pub struct ReadWriteSet {
    reads: Reads,
    objects: ObjectChanges,
    names: NameChanges,
    tasks: TaskChanges,
    touched: Vec<Item>,
    outs: Vec<(ConnNo, Out)>,
    run: RunNo,
    at: u64,
    objects_made: u32,
    tasks_made: u32,
    mode: Mode,
    alloc: Global,
}

impl Drop for ReadWriteSet {
    fn drop(self) {
        let ReadWriteSet {
            reads: _,
            objects: _,
            names: _,
            tasks: _,
            touched: _,
            outs: _,
            run: _,
            at: _,
            objects_made: _,
            tasks_made: _,
            mode: _,
            alloc: _,
        } = self;
    }
}

impl Model for ReadWriteSet {
    ghost use Rattle.std.specs.Prelude.{◌≤◌};
    ghost use Rattle.dk_types.specs.contracts.item.Item as item;
    ghost use Rattle.dk_types.specs.contracts.item.Read as read;
    ghost use Rattle.dk_types.specs.contracts.job.Out as out;
    ghost use Rattle.dk_types.specs.declared.limits.TheConstants.{MOMENT_MOST_MS};
    ghost use Rattle.dk_overlay.specs.ReadsAndWrites.{ReadsAndWrites};
    ghost use Rattle.dk_overlay.specs.Codes.{read_write_code};

    ghost Value = { ReadsAndWrites };

    ghost coded = { read_write_code item.the_row.coded read.the_row.coded out.the_row.coded };

    ghost view = { λ a. record { reads = a.reads; objects = a.objects; names = a.names; tasks = a.tasks; touched = a.touched.items; outs = a.outs.items; run = a.run; at = a.at; objects_made = a.objects_made; tasks_made = a.tasks_made; mode = a.mode } };

    ghost invariant = { λ a. a.at ≤ MOMENT_MOST_MS };
}

/// What is handed over at the end: the reads, the items written and the messages.
#[derive(Drop)]
pub struct ReadWriteParts {
    pub reads: Vec<(Item, Read)>,
    pub touched: Vec<Item>,
    pub outs: Vec<(ConnNo, Out)>,
}

/// The items of these objects, in their order.
fn items_of(alloc: Global, changes: &[(ObjectId, Change<Object>)]) -> Result<Vec<Item>, NoMemory>
    ensures { IfOk result (λ items. items.items ≡ each (λ c. ask.Object c.0) changes.now) }
{
    let mut items = Vec::with_capacity(alloc, changes.len())?;
    for (id, _) in changes {
        items.push(Item::Object(*id))?;
    }
    Ok(items)
}

/// What changes of objects, names and tasks come to.
fn net_effects(
    alloc: Global,
    objects: ObjectChanges,
    names: NameChanges,
    tasks: TaskChanges,
) -> Result<Effects, NoMemory>
    ensures { IfOk result (λ effects. effects ≡ net_of objects names tasks) }
{
    let objects = objects.into_effects(alloc)?;
    let names = names.into_effects(alloc)?;
    let tasks = tasks.into_effects(alloc)?;
    Ok(Effects {
        written: Listed::from_vec(objects.written),
        removed: Listed::from_vec(objects.removed),
        bound: Listed::from_vec(names.bound),
        unbound: Listed::from_vec(names.unbound),
        added: Listed::from_vec(tasks.added),
        dropped: Listed::from_vec(tasks.dropped),
        requeued: Listed::from_vec(tasks.requeued),
    })
}

impl ReadWriteSet {
    /// Of a run that has done nothing yet, at its moment in ms.
    pub fn new(alloc: Global, run: RunNo, at: u64) -> ReadWriteSet
        requires { at ≤ MOMENT_MOST_MS }
        ensures { result ≡ nothing_done run at }
    {
        ReadWriteSet {
            reads: Reads::new(alloc),
            objects: ObjectChanges::new(alloc),
            names: NameChanges::new(alloc),
            tasks: TaskChanges::new(alloc),
            touched: Vec::new(alloc),
            outs: Vec::new(alloc),
            run,
            at,
            objects_made: 0,
            tasks_made: 0,
            mode: Mode::Platform,
            alloc,
        }
    }

    /// Where the run's memory comes from.
    pub fn allocator(&self) -> Global {
        self.alloc
    }

    /// The run's number.
    pub fn run(&self) -> RunNo
        ensures { result ≡ self.now.run }
    {
        self.run
    }

    /// The run's moment, in ms.
    pub fn at(&self) -> u64
        ensures is { result ≡ self.now.at }
        ensures most { result ≤ MOMENT_MOST_MS }
    {
        self.at
    }

    /// Whether the platform or the game calls now.
    pub fn mode(&self) -> Mode
        ensures { result ≡ self.now.mode }
    {
        self.mode
    }

    /// Says who calls from now on.
    pub fn set_mode(&mut self, mode: Mode)
        ensures { self.new ≡ record self.old { mode = mode } }
    {
        self.mode = mode;
    }

    /// How many objects the run has made.
    pub fn objects_made(&self) -> u32
        ensures { result ≡ self.now.objects_made }
    {
        self.objects_made
    }

    /// How many tasks the run has scheduled.
    pub fn tasks_made(&self) -> u32
        ensures { result ≡ self.now.tasks_made }
    {
        self.tasks_made
    }

    /// How many messages the run has sent.
    pub fn outs_made(&self) -> u64
        ensures { result ≡ length self.now.outs }
    {
        self.outs.len() as u64
    }

    /// The read of an item, if it was made.
    pub fn read(&self, item: &Item) -> Option<&Read>
        ensures some { IfSome result (λ read. WasRead self.now.reads item.now read.now) }
        ensures none { IfNone result (WasNotRead self.now.reads item.now) }
    {
        self.reads.get(item)
    }

    /// A copy of what was answered to an item, if it was asked.
    pub fn answer(&self, item: &Item) -> Result<Option<Answer>, NoMemory>
        ensures some { IfOk result (λ o. IfSome o (WasAnswered self.now.reads item.now)) }
        ensures none { IfOk result (λ o. IfNone o (WasNotRead self.now.reads item.now)) }
    {
        self.reads.answer(item)
    }

    /// Keeps what the world answered for an item that was not read before. Refused, it changes nothing.
    pub fn add_read(&mut self, item: Item, read: Read) -> Result<(), NoMemory>
        requires { WasNotRead self.old.reads item }
        ensures ok { OnOk result (self.new ≡ reading self.old item read) }
        ensures err { OnErr result (self.new ≡ self.old) }
    {
        self.reads.push(item, read)
    }

    /// The change of an object, if the run changed it.
    pub fn object(&self, id: ObjectId) -> Option<&Change<Object>>
        ensures { option_copied result ≡ map.get self.now.objects id }
    {
        self.objects.get(id)
    }

    /// The change of a name, if the run changed it.
    pub fn name(&self, name: &Name) -> Option<Change<ObjectId>>
        ensures { result ≡ map.get self.now.names name.now }
    {
        self.names.get(name)
    }

    /// The least name above the given one that the run has bound, or the least of all that it has.
    pub fn next_bound(&self, after: Option<&Name>) -> Option<&Name>
        ensures { Least bytes_cmp (is_bound_after self.now.names (option_copied after.entry)) (option_copied result) }
    {
        self.names.next_bound(after)
    }

    /// Whether the task is pending, where the changes alone tell it.
    pub fn task_settled(&self, key: TaskKey) -> Option<bool>
        ensures { result ≡ settled (map.get self.now.tasks key) }
    {
        self.tasks.settled(key)
    }

    /// Changes an object. Refused, it changes nothing.
    pub fn change_object(&mut self, id: ObjectId, change: Change<Object>) -> Result<(), NoMemory>
        ensures ok { OnOk result (self.new ≡ changing_object self.old id change) }
        ensures err { OnErr result (self.new ≡ self.old) }
    {
        self.touched.push(Item::Object(id))?;
        match self.objects.set(id, change) {
            Ok(()) => Ok(()),
            Err(error) => {
                self.touched.pop();
                Err(error)
            }
        }
    }

    /// Makes an object under the run's next number. Refused, it changes nothing.
    pub fn create_object(&mut self, object: Object) -> Result<ObjectId, NoMemory>
        requires { self.old.objects_made < 65536 }
        ensures ok { IfOk result (λ id. (id ≡ new_id self.old) × (self.new ≡ creating self.old object)) }
        ensures err { OnErr result (self.new ≡ self.old) }
    {
        let id = ObjectId {
            run: self.run,
            k: self.objects_made,
        };
        let change = Change {
            before: None,
            after: Some(object),
        };
        self.change_object(id, change)?;
        self.objects_made += 1;
        Ok(id)
    }

    /// Binds a name, or takes it away. Refused, it changes nothing.
    pub fn change_name(&mut self, name: &Name, change: Change<ObjectId>) -> Result<(), NoMemory>
        ensures ok { OnOk result (self.new ≡ changing_name self.old name.now change) }
        ensures err { OnErr result (self.new ≡ self.old) }
    {
        let item = Item::Bound(name.clone()?);
        self.touched.push(item)?;
        match self.names.set(name, change) {
            Ok(()) => Ok(()),
            Err(error) => {
                self.touched.pop();
                Err(error)
            }
        }
    }

    /// Changes an object and a name, or neither. Both are listed as written, in this order.
    fn change_both(
        &mut self,
        listed: (Item, Item),
        id: ObjectId,
        change: Change<Object>,
        name: &Name,
        binding: Change<ObjectId>,
    ) -> Result<(), NoMemory>
        ensures ok { OnOk result (self.new ≡ record self.old { objects = map.insert self.old.objects id change; names = map.insert self.old.names name.now binding; touched = (self.old.touched ++ listed.0 ∷ []) ++ listed.1 ∷ [] }) }
        ensures err { OnErr result (self.new ≡ self.old) }
    {
        self.touched.reserve(2)?;
        let stood = self.objects.replace(id, change)?;
        if let Err(error) = self.names.set(name, binding) {
            self.objects.put_back(id, stood);
            return Err(error);
        }
        self.touched.push_reserved(listed.0);
        self.touched.push_reserved(listed.1);
        Ok(())
    }

    /// A new object, and a name that is bound to it, or neither; `before` is what the name was bound to before the run.
    pub fn create_named(
        &mut self,
        object: Object,
        name: &Name,
        before: Option<ObjectId>,
    ) -> Result<(), NoMemory>
        requires { self.old.objects_made < 65536 }
        ensures ok { OnOk result (self.new ≡ changing_name (creating self.old object) name.now (record { before = before; after = Some (new_id self.old) })) }
        ensures err { OnErr result (self.new ≡ self.old) }
    {
        let id = ObjectId {
            run: self.run,
            k: self.objects_made,
        };
        let change = Change {
            before: None,
            after: Some(object),
        };
        let binding = Change {
            before,
            after: Some(id),
        };
        let listed = (Item::Object(id), Item::Bound(name.clone()?));
        self.change_both(listed, id, change, name, binding)?;
        self.objects_made += 1;
        Ok(())
    }

    /// A change of a name and then one of an object, or neither.
    pub fn change_named(
        &mut self,
        name: &Name,
        binding: Change<ObjectId>,
        id: ObjectId,
        change: Change<Object>,
    ) -> Result<(), NoMemory>
        ensures ok { OnOk result (self.new ≡ changing_object (changing_name self.old name.now binding) id change) }
        ensures err { OnErr result (self.new ≡ self.old) }
    {
        let listed = (Item::Bound(name.clone()?), Item::Object(id));
        self.change_both(listed, id, change, name, binding)
    }

    /// The changes of two objects, one after the other, or neither.
    pub fn change_two(
        &mut self,
        first: ObjectId,
        change: Change<Object>,
        second: ObjectId,
        next: Change<Object>,
    ) -> Result<(), NoMemory>
        ensures ok { OnOk result (self.new ≡ changing_object (changing_object self.old first change) second next) }
        ensures err { OnErr result (self.new ≡ self.old) }
    {
        self.touched.reserve(2)?;
        let stood = self.objects.replace(first, change)?;
        if let Err(error) = self.objects.set(second, next) {
            self.objects.put_back(first, stood);
            return Err(error);
        }
        self.touched.push_reserved(Item::Object(first));
        self.touched.push_reserved(Item::Object(second));
        Ok(())
    }

    /// The changes of these objects, one after another, or none of them.
    pub fn change_all(&mut self, changes: Vec<(ObjectId, Change<Object>)>) -> Result<(), NoMemory>
        ensures ok { OnOk result (self.new ≡ changing_objects self.old changes.items) }
        ensures err { OnErr result (self.new ≡ self.old) }
    {
        let had = self.touched.len();
        let mut listed = items_of(self.alloc, changes.as_slice())?;
        self.touched.append(&mut listed)?;
        match self.objects.set_all(changes) {
            Ok(()) => Ok(()),
            Err(error) => {
                self.touched.truncate(had);
                Err(error)
            }
        }
    }

    /// Schedules a task under the run's next number. Refused, it changes nothing.
    pub fn schedule_task(&mut self, task: Scheduled) -> Result<TaskKey, NoMemory>
        requires { self.old.tasks_made < 65536 }
        ensures ok { IfOk result (λ key. (key ≡ new_key self.old) × (self.new ≡ scheduling self.old task)) }
        ensures err { OnErr result (self.new ≡ self.old) }
    {
        let key = TaskKey {
            run: self.run,
            k: self.tasks_made,
        };
        self.touched.push(Item::Task(key))?;
        match self.tasks.add(key, task) {
            Ok(()) => {
                self.tasks_made += 1;
                Ok(key)
            }
            Err(error) => {
                self.touched.pop();
                Err(error)
            }
        }
    }

    /// Takes a task away. Refused, it changes nothing.
    pub fn remove_task(&mut self, key: TaskKey) -> Result<(), NoMemory>
        ensures ok { OnOk result (self.new ≡ removing_task self.old key) }
        ensures err { OnErr result (self.new ≡ self.old) }
    {
        self.touched.push(Item::Task(key))?;
        match self.tasks.remove(key) {
            Ok(()) => Ok(()),
            Err(error) => {
                self.touched.pop();
                Err(error)
            }
        }
    }

    /// Gives a task another due moment, in ms, which lists nothing as written; `from` is the one before the run.
    pub fn move_task(&mut self, key: TaskKey, from: u64, to: u64) -> Result<(), NoMemory>
        ensures ok { OnOk result (self.new ≡ moving_task self.old key from to) }
        ensures err { OnErr result (self.new ≡ self.old) }
    {
        self.tasks.move_to(key, from, to)
    }

    /// Puts a message last. Refused, it changes nothing.
    pub fn add_out(&mut self, to: ConnNo, out: Out) -> Result<(), NoMemory>
        ensures ok { OnOk result (self.new ≡ sending self.old to out) }
        ensures err { OnErr result (self.new ≡ self.old) }
    {
        self.outs.push((to, out))?;
        Ok(())
    }

    /// Puts all these messages last, or none.
    pub fn add_outs(&mut self, outs: Vec<(ConnNo, Out)>) -> Result<(), NoMemory>
        ensures ok { OnOk result (self.new ≡ record self.old { outs = self.old.outs ++ outs.items }) }
        ensures err { OnErr result (self.new ≡ self.old) }
    {
        let mut outs = outs;
        self.outs.append(&mut outs)?;
        Ok(())
    }

    /// The net effects of the changes, and the set without these changes. Refused, the set is let go.
    pub fn into_effects(self) -> Result<(Effects, ReadWriteSet), NoMemory>
        ensures effects { IfOk result (λ r. r.0 ≡ net_changes self) }
        ensures rest { IfOk result (λ r. r.1 ≡ without_changes self) }
    {
        let alloc = self.alloc;
        let ReadWriteSet {
            reads,
            objects,
            names,
            tasks,
            touched,
            outs,
            run,
            at,
            objects_made,
            tasks_made,
            mode,
            alloc: _,
        } = self;
        let effects = net_effects(alloc, objects, names, tasks)?;
        let rest = ReadWriteSet {
            reads,
            objects: ObjectChanges::new(alloc),
            names: NameChanges::new(alloc),
            tasks: TaskChanges::new(alloc),
            touched,
            outs,
            run,
            at,
            objects_made,
            tasks_made,
            mode,
            alloc,
        };
        Ok((effects, rest))
    }

    /// Hands over what does not depend on how the run ended.
    pub fn into_parts(self) -> ReadWriteParts
        ensures reads { result.reads.items ≡ self.reads }
        ensures once { IsOnce self.reads }
        ensures touched { result.touched.items ≡ self.touched }
        ensures outs { result.outs.items ≡ self.outs }
    {
        let ReadWriteSet {
            reads,
            objects: _,
            names: _,
            tasks: _,
            touched,
            outs,
            run: _,
            at: _,
            objects_made: _,
            tasks_made: _,
            mode: _,
            alloc: _,
        } = self;
        ReadWriteParts {
            reads: reads.into_list(),
            touched,
            outs,
        }
    }
}
