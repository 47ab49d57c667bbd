//! The event by which a worker ends.
ghost use Rattle.std.specs.Prelude.{◌≡◌, ◌≤◌};
ghost use Rattle.book_rules.specs.Events.{release};
ghost use Rattle.book_core.specs.Replies.{Answers};

use crate::book::Book;
use crate::reply::{Refusal, Reply};
use lock_model::WORKERS;

impl Book {
    /// Ends a worker of 0 to `WORKERS`, the driver, who gives back the slot that it holds, if any. Refuses `Ended`.
    /// Takes no memory.
    pub fn release(&mut self, worker: u8) -> Reply
        requires { worker ≤ WORKERS }
        ensures { Answers self.old (release worker) result self.new }
    {
        self.keeps();
        if self.ended(worker) {
            return Reply::Refused(Refusal::Ended(worker));
        }
        match self.held_by(worker) {
            Some(id) => {
                self.put_back(id, worker);
                Reply::Released(1)
            }
            None => {
                self.end(worker);
                Reply::Released(0)
            }
        }
    }
}
