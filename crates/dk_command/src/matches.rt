//! What `clap` found in the words: the values of arguments and options.
ghost use Rattle.std.specs.Prelude.{◌≡◌, ◌≢◌, [], ℕ, Some, true, codes, IfOk, IsSome, string_bytes};
ghost use Rattle.clap.specs.Words.{app_of, fault_of, first_of, found_of, rows_of};
ghost use Rattle.clap.specs.Walk.{texts};
ghost use Rattle.dk_command.specs.Found.{is_plain, IsBetween, IsFlag, IsReadAs};
ghost use Rattle.dk_command.specs.Matches.{game_in, is_set, number_or};

use crate::command::GameName;
use crate::parse::CommandRefused;
use clap::error::ErrorKind;
use clap::{ArgMatches, Command};
use std::alloc::Global;

/// What the command finds in the words, of which the first is its name.
pub(crate) fn read<'a>(
    command: Command<'a>,
    words: &'a [&'a str],
) -> Result<ArgMatches<'a>, CommandRefused>
    requires { is_plain (app_of command) ≡ true }
    ensures ok { IfOk result (IsReadAs (app_of command.entry) (texts words.entry.now)) }
    ensures usage { result ≡ Err CommandRefused.Usage → fault_of (app_of command.entry) (texts words.entry.now) ≢ [] }
{
    match command.try_get_matches_from(words) {
        Ok(matches) => Ok(matches),
        Err(error) => match error.kind() {
            ErrorKind::OutOfMemory => Err(CommandRefused::NoMemory),
            _ => Err(CommandRefused::Usage),
        },
    }
}

/// The value of `DIR`.
pub(crate) fn dir(alloc: Global, matches: &ArgMatches<'_>) -> Result<String, CommandRefused>
    requires { IsSome (first_of (codes "DIR") (rows_of (found_of matches.now))) }
    ensures ok { IfOk result (λ dir. first_of (codes "DIR") (rows_of (found_of matches.now)) ≡ Some (string_bytes dir)) }
    ensures usage { result ≢ Err CommandRefused.Usage }
{
    match matches.get_str("DIR") {
        Some(dir) => Ok(String::from_str(alloc, dir)?),
        None => Err(CommandRefused::Usage),
    }
}

/// The game of `--game`, if that names one.
pub(crate) fn game(matches: &ArgMatches<'_>) -> Option<GameName>
    ensures { result ≡ game_in (rows_of (found_of matches.now)) }
{
    match matches.get_str("game") {
        Some(word) => GameName::of_word(word),
        None => Some(GameName::SwordWorld),
    }
}

/// The number of this option, or the other number where it is not given.
pub(crate) fn number(matches: &ArgMatches<'_>, name: &str, other: u64) -> u64
    requires { (least : ℕ) × (most : ℕ) × IsBetween least most name.now (rows_of (found_of matches.now)) }
    ensures { result ≡ number_or other name.now (rows_of (found_of matches.now)) }
{
    matches.get_one::<u64>(name).unwrap_or(other)
}

/// Whether this flag is given.
pub(crate) fn flag(matches: &ArgMatches<'_>, name: &str) -> bool
    requires { IsFlag name.now (rows_of (found_of matches.now)) }
    ensures { result ≡ is_set name.now (rows_of (found_of matches.now)) }
{
    matches.get_flag(name)
}
