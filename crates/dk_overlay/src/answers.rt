//! What an answer tells. An answer of another kind tells what is absent.
ghost use Rattle.std.specs.Prelude.{◌≡◌, IfOk};
ghost use Rattle.dk_overlay.specs.Answers.{object_in, id_in, next_in, is_pending};

use crate::change::copy_object;
use dk_types::{Answer, Name, NoMemory, Object, ObjectId};

/// The object.
pub fn object_of_answer(answer: Answer) -> Option<Object>
    ensures { result ≡ object_in answer }
{
    match answer {
        Answer::Object(object) => Some(object),
        _ => None,
    }
}

/// The object that a name is bound to.
pub fn says_named(answer: &Answer) -> Option<ObjectId>
    ensures { result ≡ id_in answer.now }
{
    match answer {
        Answer::Named(id) => Some(*id),
        _ => None,
    }
}

/// The next name.
pub fn says_next(answer: Answer) -> Option<Name>
    ensures { result ≡ next_in answer }
{
    match answer {
        Answer::Next(name) => name,
        _ => None,
    }
}

/// Whether the task is pending.
pub fn says_pending(answer: &Answer) -> bool
    ensures { result ≡ is_pending answer.now }
{
    match answer {
        Answer::Task => true,
        _ => false,
    }
}

/// A copy of what may be a name.
pub fn copy_name(name: &Option<Name>) -> Result<Option<Name>, NoMemory>
    ensures { IfOk result (λ copy. copy ≡ name.now) }
{
    match name {
        None => Ok(None),
        Some(name) => Ok(Some(name.clone()?)),
    }
}

/// A copy of an answer.
pub fn copy_answer(answer: &Answer) -> Result<Answer, NoMemory>
    ensures { IfOk result (λ copy. copy ≡ answer.now) }
{
    match answer {
        Answer::NoObject => Ok(Answer::NoObject),
        Answer::Object(object) => Ok(Answer::Object(copy_object(object)?)),
        Answer::NoName => Ok(Answer::NoName),
        Answer::Named(id) => Ok(Answer::Named(*id)),
        Answer::Next(name) => Ok(Answer::Next(copy_name(name)?)),
        Answer::NoTask => Ok(Answer::NoTask),
        Answer::Task => Ok(Answer::Task),
    }
}
