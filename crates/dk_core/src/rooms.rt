// How much room a commit needs.
ghost use Rattle.std.specs.Prelude.{◌≡◌};
ghost use Rattle.dk_core.specs.Rooms.{places_of as effects_places};

use dk_types::Effects;

/// How many places of each kind have to be there: as many as there are objects, names or tasks that are put there,
/// whichever are most.
pub(crate) fn places_of(effects: &Effects) -> u64
    ensures { result ≡ effects_places effects.now }
{
    let objects = effects.written.as_slice().len();
    let names = effects.bound.as_slice().len();
    let tasks = effects.added.as_slice().len();
    objects.max(names).max(tasks) as u64
}
