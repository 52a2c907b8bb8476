// A network of stations over two stores, as types: a draft takes forms and no steps, a running network takes steps and no
// forms, an ended one only tells its closing line and its counts. Each is used up by the next. Both stores, any two
// agendas, are lent to each form and step, one by one, which is a rule of the project: they are two values of two types, and a
// struct of two `&mut` would have to say in each contract that it still holds them.
// Indices are widened by `as usize`: from a u32 there is no `usize::from`, and to the proofs it is the number itself.
#![tactic(auto)]

mod checks;
mod drafts;
mod endings;
mod forms;
mod runs;

pub use endings::Closing;
use machine::{Fault, Network};
use workshop::Run;
pub use workshop::Step;

// A network that takes forms.
pub struct Draft<'a> {
    net: &'a mut Network,
}

// A network that takes steps.
pub struct Running<'a> {
    net: &'a mut Network,
    run: Run,
    // a step has told the end or a fault: a question of two answers, for which a Progress kept would hold one of three
    over: bool,
}

// A network whose run is over.
pub struct Ended<'a> {
    net: &'a mut Network,
    // the tick of the end form
    end: u32,
    // why the run ended before its end
    fault: Option<Fault>,
}
