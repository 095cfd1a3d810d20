//! The items of a world, each written as one JSON value.
ghost use Rattle.std.specs.Prelude.{◌≡◌, ◌++◌, flat_map, false, string_bytes, IfOk, OnOk};
ghost use Rattle.serde_json.specs.View.{view};
ghost use Rattle.serde_json.specs.Written.{compact_text, has_float};
ghost use Rattle.dk_inspect.specs.Items.{later_text, list_text};
ghost use Rattle.dk_inspect.specs.Texts.{place_text};

use dk_types::{Name, NoMemory, Object, ObjectId, Pending};
use serde_json::{Value, json};
use std::alloc::Global;

/// What stands in a list of the text.
pub(crate) trait ItemText {
    ghost use Rattle.serde_json.specs.Data.{Data};

    ghost shown: { Self → Data };

    /// It as JSON.
    fn show(&self, alloc: Global) -> Result<Value, NoMemory>
        ensures view { IfOk result (λ value. view value ≡ shown self.now) }
        ensures whole { IfOk result (λ value. has_float (view value) ≡ false) };
}

/// `RUN.K`, by which objects and tasks are named.
fn place(alloc: Global, run: u64, k: u32) -> Result<String, NoMemory>
    ensures { IfOk result (λ text. string_bytes text ≡ place_text run k) }
{
    Ok(format!(in alloc; "{run}.{k}")?)
}

impl ItemText for (Name, ObjectId) {
    ghost use Rattle.dk_inspect.specs.Items.{name_data};

    ghost shown = { name_data };

    fn show(&self, alloc: Global) -> Result<Value, NoMemory> {
        let id = place(alloc, self.1.run.0, self.1.k)?;
        Ok(json!(in alloc; [(self.0.as_str()), (id.as_str())])?)
    }
}

impl ItemText for (ObjectId, Object) {
    ghost use Rattle.dk_inspect.specs.Items.{object_data};

    ghost shown = { object_data };

    fn show(&self, alloc: Global) -> Result<Value, NoMemory> {
        let id = place(alloc, self.0.run.0, self.0.k)?;
        let bytes = hex::encode(alloc, self.1.bytes.as_slice())?;
        Ok(json!(in alloc; [(id.as_str()), (self.1.kind), (bytes.as_str())])?)
    }
}

impl ItemText for Pending {
    ghost use Rattle.dk_inspect.specs.Items.{task_data};

    ghost shown = { task_data };

    fn show(&self, alloc: Global) -> Result<Value, NoMemory> {
        let key = place(alloc, self.key.run.0, self.key.k)?;
        let arg = hex::encode(alloc, self.arg.as_slice())?;
        Ok(
            json!(in alloc; [(key.as_str()), (self.due), (self.period), (self.kind), (arg.as_str())])?,
        )
    }
}

fn push_shown<T: ItemText>(alloc: Global, out: &mut String, item: &T) -> Result<(), NoMemory>
    ensures { OnOk result (string_bytes out.new ≡ string_bytes out.old ++ compact_text (T.shown item.now)) }
{
    let value = item.show(alloc)?;
    let text = value.to_string(alloc)?;
    out.push_str(text.as_str())?;
    Ok(())
}

/// Each item after a comma.
fn push_later<T: ItemText>(alloc: Global, out: &mut String, items: &[T]) -> Result<(), NoMemory>
    ensures { OnOk result (string_bytes out.new ≡ string_bytes out.old ++ flat_map (later_text T.shown) items.now) }
{
    for item in items {
        out.push_str(",")?;
        push_shown(alloc, out, item)?;
    }
    Ok(())
}

/// The items as a JSON array, in their order.
pub(crate) fn push_list<T: ItemText>(
    alloc: Global,
    out: &mut String,
    items: &[T],
) -> Result<(), NoMemory>
    ensures { OnOk result (string_bytes out.new ≡ string_bytes out.old ++ list_text T.shown items.now) }
{
    match items.split_first() {
        None => {
            out.push_str("[]")?;
            Ok(())
        }
        Some((first, later)) => {
            out.push_str("[")?;
            push_shown(alloc, out, first)?;
            push_later(alloc, out, later)?;
            out.push_str("]")?;
            Ok(())
        }
    }
}
