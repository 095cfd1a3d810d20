//! Worked examples of SwordWorld: what its jobs tell and leave on some worlds, and a history of a login and a
//! look, computed from the definitions alone, each the contract of a function that does nothing. The worlds and
//! the terms that they are told in are those of `dk_examples`.
#![tactic(auto)]

pub use histories::sword_history;
pub use swords::{
    displacing_length, sword_begins, sword_dance, sword_drop, sword_drop_nothing, sword_leave,
    sword_lengths, sword_login, sword_login_again, sword_look, sword_look_around,
    sword_look_in_other_letters, sword_take, sword_take_again,
};

mod histories;
mod swords;
