//! Every limit of the server, with its unit in its name.

/// The most bytes of an object, a task's argument or a message's body.
pub const BODY_MOST_BYTES: u64 = 1_048_576;

/// The most bytes of a text in a script.
pub const TEXT_MOST_BYTES: u64 = 65_535;

/// The most bytes of a name.
pub const NAME_MOST_BYTES: u64 = 255;

/// The most bytes of a game's id.
pub const GAME_ID_MOST_BYTES: u64 = 44;

/// The most objects that one run makes.
pub const OBJECTS_MOST_COUNT: u64 = 65_536;

/// The most tasks that one run schedules.
pub const TASKS_MOST_COUNT: u64 = 65_536;

/// The most messages that one run sends.
pub const MESSAGES_MOST_COUNT: u64 = 65_536;

/// The most bytes that the effects of one run encode to.
pub const EFFECTS_MOST_BYTES: u64 = 16_777_216;

/// The longest delay of a task.
pub const DELAY_MOST_MS: u64 = 1_099_511_627_776;

/// The longest period of a task.
pub const PERIOD_MOST_MS: u64 = 1_099_511_627_776;

/// The latest moment.
pub const MOMENT_MOST_MS: u64 = 4_611_686_018_427_387_904;

/// No run, connection or epoch has this number or a greater one.
pub const NUMBERS_END: u64 = 4_611_686_018_427_387_904;

/// The most inputs that wait at one connection, not counting a Disconnect.
pub const INPUTS_MOST_COUNT: u64 = 1_024;

/// The most messages that wait at one connection.
pub const OUTS_MOST_COUNT: u64 = 4_096;

/// The most passes of a host.
pub const PASSES_MOST_COUNT: u32 = 1_024;

/// The most bytes of a journal.
pub const JOURNAL_MOST_BYTES: u64 = 1_099_511_627_776;

/// The most bytes of a script.
pub const SCRIPT_MOST_BYTES: u64 = 16_777_216;
