//! What the game keeps.
ghost use Rattle.std.specs.Prelude.{◌≡◌, ◌++◌, ◌∷◌, [], drop, slice_get, IfOk};
ghost use Rattle.sword_world.specs.Rules.{others};

use crate::forms::{PlayerForm, RoomForm, ThingForm};
use dk_refs::{Managed, decode_as};
use dk_types::{Blob, Listed, Name, NoMemory, ObjectId};
use dk_wire::encode;
use std::alloc::Global;

/// The room: who is in it, in the order of entering, and what lies there.
#[derive(Debug, Drop)]
pub struct Room {
    pub players: Listed<ObjectId>,
    pub items: Listed<ObjectId>,
}

/// A thing, with its description.
#[derive(Debug, Drop)]
pub struct Thing {
    pub description: Name,
}

/// A player, and what it carries.
#[derive(Debug, Drop)]
pub struct Player {
    pub name: Name,
    pub carried: Option<ObjectId>,
}

impl Managed for Room {
    ghost use Rattle.sword_world.specs.Things.{room_bytes, room_of};
    ghost use Rattle.sword_world.specs.ThingLaws.{IsRoom, room_reads};

    const KIND: u16 = 1;

    ghost KIND = { 1 };

    ghost fits = { IsRoom };

    ghost bytes = { room_bytes };

    ghost of = { room_of };

    fn encode(&self, alloc: Global) -> Result<Blob, NoMemory> {
        encode::<Room, RoomForm>(alloc, self)
    }

    #[tactic(auto, unfolding(crate::specs::Things::room_of))]
    fn decode(alloc: Global, payload: &Blob) -> Result<Option<Room>, NoMemory> {
        decode_as::<Room, RoomForm>(alloc, payload.as_slice())
    }

    ghost exact = { room_reads };
}

impl Managed for Thing {
    ghost use Rattle.sword_world.specs.Things.{thing_bytes, thing_of};
    ghost use Rattle.sword_world.specs.ThingLaws.{IsThing, thing_reads};

    const KIND: u16 = 2;

    ghost KIND = { 2 };

    ghost fits = { IsThing };

    ghost bytes = { thing_bytes };

    ghost of = { thing_of };

    fn encode(&self, alloc: Global) -> Result<Blob, NoMemory> {
        encode::<Thing, ThingForm>(alloc, self)
    }

    #[tactic(auto, unfolding(crate::specs::Things::thing_of))]
    fn decode(alloc: Global, payload: &Blob) -> Result<Option<Thing>, NoMemory> {
        decode_as::<Thing, ThingForm>(alloc, payload.as_slice())
    }

    ghost exact = { thing_reads };
}

impl Managed for Player {
    ghost use Rattle.sword_world.specs.Things.{player_bytes, player_of};
    ghost use Rattle.sword_world.specs.ThingLaws.{IsPlayer, player_reads};

    const KIND: u16 = 3;

    ghost KIND = { 3 };

    ghost fits = { IsPlayer };

    ghost bytes = { player_bytes };

    ghost of = { player_of };

    fn encode(&self, alloc: Global) -> Result<Blob, NoMemory> {
        encode::<Player, PlayerForm>(alloc, self)
    }

    #[tactic(auto, unfolding(crate::specs::Things::player_of))]
    fn decode(alloc: Global, payload: &Blob) -> Result<Option<Player>, NoMemory> {
        decode_as::<Player, PlayerForm>(alloc, payload.as_slice())
    }

    ghost exact = { player_reads };
}

/// The ids, and one more behind them.
fn with_last(ids: Listed<ObjectId>, id: ObjectId) -> Result<Listed<ObjectId>, NoMemory>
    ensures { IfOk result (λ longer. longer ≡ ids ++ id ∷ []) }
{
    let mut ids = ids.into_vec();
    ids.push(id)?;
    Ok(Listed::from_vec(ids))
}

/// The ids without the first.
fn without_first(ids: Listed<ObjectId>) -> Listed<ObjectId>
    ensures { result ≡ drop 1 ids }
{
    let mut ids = ids.into_vec();
    if !ids.is_empty() {
        ids.remove(0);
    }
    Listed::from_vec(ids)
}

/// The players but for this one.
pub fn others_of(
    alloc: Global,
    me: ObjectId,
    players: &[ObjectId],
) -> Result<Vec<ObjectId>, NoMemory>
    ensures { IfOk result (λ ids. ids.items ≡ others me players.now) }
{
    let others = players
        .iter()
        .copied()
        .filter(|player| !(player.run.0 == me.run.0 && player.k == me.k))
        .collect(alloc)?;
    Ok(others)
}

impl Room {
    /// The room with the player last among its players.
    pub fn with_player(self, player: ObjectId) -> Result<Room, NoMemory>
        ensures { IfOk result (λ room. room ≡ record self { players = self.players ++ player ∷ [] }) }
    {
        let Room { players, items } = self;
        let players = with_last(players, player)?;
        Ok(Room { players, items })
    }

    /// The room without the player, in all its places.
    pub fn without_player(self, alloc: Global, player: ObjectId) -> Result<Room, NoMemory>
        ensures { IfOk result (λ room. room ≡ record self { players = others player self.players }) }
    {
        let Room { players, items } = self;
        let players = others_of(alloc, player, players.as_slice())?;
        Ok(Room {
            players: Listed::from_vec(players),
            items,
        })
    }

    /// The room with the thing last in it.
    pub fn with_item(self, item: ObjectId) -> Result<Room, NoMemory>
        ensures { IfOk result (λ room. room ≡ record self { items = self.items ++ item ∷ [] }) }
    {
        let Room { players, items } = self;
        let items = with_last(items, item)?;
        Ok(Room { players, items })
    }

    /// The first thing in the room.
    pub fn first_item(&self) -> Option<ObjectId>
        ensures { result ≡ slice_get self.now.items 0 }
    {
        self.items.as_slice().first().copied()
    }

    /// The room without the first thing in it.
    pub fn without_first_item(self) -> Room
        ensures { result ≡ record self { items = drop 1 self.items } }
    {
        let Room { players, items } = self;
        Room {
            players,
            items: without_first(items),
        }
    }
}

impl Player {
    /// The player, who carries this and nothing else.
    pub fn carrying(self, carried: Option<ObjectId>) -> Player
        ensures { result ≡ record self { carried = carried } }
    {
        let Player { name, carried: _ } = self;
        Player { name, carried }
    }
}
