// A store that can cancel.
ghost use Rattle.stores.specs.Promises.{Cancels, Unchanged};

use crate::queues::Store;
use crate::refusals::Refusal;

pub trait Agenda: Store {
    // The entry with the stamp leaves its queue, whose number is the answer.
    fn cancel(&mut self, stamp: u16) -> Result<u8, Refusal>
        requires { Self.sound self.old }
        ensures sound { Self.sound self.new }
        ensures effect { Cancels Self.Item.Ordered.le (Self.meaning self.old) stamp result (Self.meaning self.new) }
        ensures refused { Unchanged result self.old self.new };
}
