//! To which connections a commit sends messages.

use dk_types::{ConnNo, Out};

/// How many connections are told by their numbers.
pub const RECIPIENTS_MOST_COUNT: usize = 8;

/// The connections that a commit sends messages to, where they are few.
#[derive(Clone, Copy, Debug)]
pub struct Recipients {
    conns: [ConnNo; RECIPIENTS_MOST_COUNT],
    count: usize,
    are_few: bool,
}

impl Recipients {
    /// Of these messages. Takes no memory.
    pub fn of(outs: &[(ConnNo, Out)]) -> Recipients {
        let mut recipients = Recipients {
            conns: [ConnNo(0); RECIPIENTS_MOST_COUNT],
            count: 0,
            are_few: true,
        };
        for (conn, _) in outs {
            if !recipients.has(*conn) {
                recipients.add(*conn);
            }
        }
        recipients
    }

    /// The connections, each once, or None where they are more than eight.
    pub fn conns(&self) -> Option<&[ConnNo]> {
        if self.are_few {
            self.conns.get(..self.count)
        } else {
            None
        }
    }

    fn has(&self, conn: ConnNo) -> bool {
        match self.conns.get(..self.count) {
            Some(conns) => conns.contains(&conn),
            None => false,
        }
    }

    fn add(&mut self, conn: ConnNo) {
        match self.conns.get_mut(self.count) {
            Some(place) => {
                *place = conn;
                self.count += 1;
            }
            None => self.are_few = false,
        }
    }
}
