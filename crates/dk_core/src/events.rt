// Connect, Post, Hand and Tick.
ghost use Rattle.std.specs.Prelude.{◌≡◌, ℕ, ◌∷◌, [], All, IfOk, take};
ghost use Rattle.dk_types.specs.declared.event.Event.TheVariants as event;
ghost use Rattle.dk_model.specs.Events.{is_open as is_open_in, outbox};
ghost use Rattle.dk_model.specs.Lawful.{HasShortBody, IsInput};
ghost use Rattle.dk_core.specs.Answers.{Connected, Posted, Hands};
ghost use Rattle.dk_core.specs.Cores.{world_of, Adds, IsStanding, KeepsReady};

use crate::answers::ConnectRefused;
use crate::world::Core;
use dk_connections::{Handed, PostRefused};
use dk_types::limits::{MOMENT_MOST_MS, NUMBERS_END};
use dk_types::{ConnNo, Input, Listed, Name, NoMemory, Out};

impl Core {
    /// Makes a connection, whose login waits.
    pub fn connect(&mut self, name: &Name) -> Result<ConnNo, ConnectRefused>
        ensures event { Connected self.old self.new name.now result }
        ensures ready { KeepsReady self.old self.new }
    {
        // What holds of every name is seen where its bytes are.
        let _bytes = name.as_slice();
        let next = self.claims.next();
        if NUMBERS_END <= next {
            return Err(ConnectRefused::Exhausted { next });
        }
        let conn = ConnNo(next);
        self.connections.connect(conn, name)?;
        self.claims.draw();
        Ok(conn)
    }

    /// Puts an input last in its connection's queue. A Disconnect takes no memory.
    pub fn post(&mut self, conn: ConnNo, input: Input) -> Result<(), PostRefused>
        requires within { IsInput input }
        ensures event { Posted self.old self.new conn input result }
        ensures ready { KeepsReady self.old self.new }
    {
        self.connections.post(conn, input)
    }

    /// Whether a connection is there and not closed.
    pub fn is_open(&self, conn: ConnNo) -> bool
        ensures { result ≡ is_open_in (world_of self.now) conn }
    {
        self.connections.is_open(conn)
    }

    /// Copies of the messages that a hand of at most so many would give. They stay.
    pub fn copy_messages(&self, conn: ConnNo, most: u32) -> Result<Listed<Out>, NoMemory>
        ensures { IfOk result (λ copies. copies ≡ take most (outbox (world_of self.now) conn)) }
    {
        self.connections.copy_first(conn, most)
    }

    /// Hands a connection's first messages, `most` of them or all, none with a body that is too long; `end` says whether it is gone.
    pub fn hand(&mut self, conn: ConnNo, most: u32) -> Result<Handed, NoMemory>
        ensures hands { Hands self.old self.new conn most result }
        ensures ready { KeepsReady self.old self.new }
        ensures bodies { IsStanding self.old → IfOk result (λ handed. All HasShortBody handed.outs) }
    {
        self.connections.hand(conn, most)
    }

    /// Time goes on to a moment, in ms, and never back. It takes no memory.
    pub fn tick(&mut self, moment: u64)
        ensures event { (pass : ℕ) → Adds self.old self.new (event.Tick pass moment ∷ []) }
        ensures ready { KeepsReady self.old self.new }
    {
        self.moment = self.moment.max(moment.min(MOMENT_MOST_MS));
    }
}
