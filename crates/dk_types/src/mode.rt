//! On whose behalf an operation acts.

/// The platform may touch names that begin with `$` and kinds from 0xFF00 on. A game may not.
#[derive(Clone, Copy, Debug, PartialEq, Eq)]
pub enum Mode {
    Platform,
    Game,
}
