//! What a command asks for.
ghost use Rattle.std.specs.Prelude.{◌≡◌};
ghost use Rattle.dk_command.specs.Requests.{AreFew, request_of};
ghost use Rattle.darkstar.specs.Asked.{request_for};

use crate::play_command::Terms;
use crate::report::{Kind, Report};
use crate::serve::ServeTerms;
use crate::serve_command::Service;
use dk_command::Command;

/// A play on the store in the folder `dir`, a server on it, a report, or a run of so many tasks by so many workers.
#[derive(Drop)]
pub enum Asked {
    Play { dir: String, terms: Terms },
    Serve { dir: String, service: Service },
    Report(Report),
    Stress { seed: u32, tasks: u32, workers: u8 },
}

impl Asked {
    /// What the command asks for.
    pub fn of(command: Command) -> Asked
        requires { AreFew command }
        ensures { request_of command ≡ request_for result }
    {
        match command {
            Command::Play {
                dir,
                game,
                workers,
                budget,
                checkpoint,
            } => {
                let terms = Terms {
                    game,
                    workers,
                    budget,
                    checkpoint,
                };
                Asked::Play { dir, terms }
            }
            Command::Serve {
                dir,
                port,
                game,
                workers,
                clients,
                sessions,
            } => {
                let terms = ServeTerms {
                    port,
                    workers,
                    clients,
                    sessions,
                };
                let service = Service { game, terms };
                Asked::Serve { dir, service }
            }
            Command::Check { dir, game } => Asked::Report(Report::new(Kind::Check, dir, game)),
            Command::Inspect { dir, game } => Asked::Report(Report::new(Kind::Inspect, dir, game)),
            Command::Stress {
                seed,
                tasks,
                workers,
            } => Asked::Stress {
                seed,
                tasks,
                workers,
            },
        }
    }
}
