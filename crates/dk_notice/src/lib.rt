//! What is told of a device's faults, for good and to all who ask.
//!
//! A board has the last word: how many faults were told, and at which count all came to an end, if it did. The count never
//! falls, and the end is told once. A notice is a copy of what the board said when it was taken. It has no bytes, belongs
//! to who has it, in whichever thread, and stays true: what it says the board goes on saying, or more. So a call that gives
//! one has shown what it tells, also where the board lies behind a lock.
#![tactic(auto)]

mod board;
mod notice;
mod rule;
mod told;

pub use board::NoticeBoard;
pub use notice::Notice;
pub use told::Told;
