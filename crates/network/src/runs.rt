// The end of a draft, the steps of a running network, and its conclusion.
ghost use Rattle.std.specs.Prelude.{◌≡◌, ◌<◌, length, None};
ghost use Rattle.machine.specs.Lent.{step_places};
ghost use Rattle.simulations.specs.Calls.{ByAnswer, Steps};
ghost use Rattle.simulations.specs.Conditions.{Fit};
ghost use Rattle.network.specs.Networks.{drafted, running, Ends, is_over, Concludes};

use crate::checks::check;
use crate::{Draft, Ended, Running};
use elements::{Event, LineEntry};
use machine::{Form, FormRefusal, Progress, Record, TooShort};
use stores::Agenda;
use workshop::{Run, Step};

impl<'a> Draft<'a> {
    // The end form: the network runs until that tick. Where it is refused the draft is given back, with the reason.
    pub fn end<E: Agenda<Item = Event>, O: Agenda<Item = LineEntry>>(
        self,
        at: u32,
        events: &E,
        orders: &O,
    ) -> Result<Running<'a>, (Draft<'a>, FormRefusal)>
        requires sound { (E.Store.sound events.now) × (O.Store.sound orders.now) }
        requires fit { Fit (drafted self (E.Store.meaning events.now) (O.Store.meaning orders.now) None) }
        ensures ends { Ends at self.entry (E.Store.meaning events.now) (O.Store.meaning orders.now) result }
    {
        // by `if let`: the draft goes back with the reason, and on where there is none, so no closure can take it
        if let Err(why) = check(self.net, events.issued(), Form::End { at }) {
            return Err((self, why));
        }
        let Draft { net } = self;
        let run = Run {
            instant: 0,
            end: at,
            fault: None,
        };
        Ok(Running {
            net,
            run,
            over: false,
        })
    }
}

impl<'a> Running<'a> {
    // A step: how many records it wrote, and how the run goes on. Refused where fewer than 9 places are lent.
    pub fn step<E: Agenda<Item = Event>, O: Agenda<Item = LineEntry>>(
        &mut self,
        events: &mut E,
        orders: &mut O,
        places: &mut [Record],
    ) -> Result<Step, TooShort>
        requires sound { (E.Store.sound events.old) × (O.Store.sound orders.old) }
        requires fit { Fit (running self.old 0 (E.Store.meaning events.old) (O.Store.meaning orders.old) places.old) }
        ensures sound { (E.Store.sound events.new) × (O.Store.sound orders.new) }
        ensures steps { ByAnswer result (λ s. Steps (running self.old 0 (E.Store.meaning events.old) (O.Store.meaning orders.old) places.old) (running self.new s.written (E.Store.meaning events.new) (O.Store.meaning orders.new) places.new) s.written s.progress) (length places.old < step_places) }
        ensures over { ByAnswer result (λ s. self.new.over ≡ is_over s.progress) (Unit {0}) }
        ensures refused { ByAnswer result (λ _. Unit {0}) ((self.new ≡ self.old) × (events.new ≡ events.old) × (orders.new ≡ orders.old) × (places.new ≡ places.old)) }
    {
        let step = self.run.step(self.net, events, orders, places)?;
        self.over = step.progress != Progress::Stepped;
        Ok(step)
    }

    // The ended network, once a step has told the end or a fault; before that the running one is given back.
    pub fn conclude(self) -> Result<Ended<'a>, Running<'a>>
        ensures { Concludes self.entry result }
    {
        if self.over {
            let Running { net, run, over: _ } = self;
            Ok(Ended {
                net,
                end: run.end,
                fault: run.fault,
            })
        } else {
            Err(self)
        }
    }
}
