// Theorems about outcomes. The functions compute nothing: each stands for the theorem in its contract.
ghost use Rattle.outcomes.specs.Composition.{Composes, EnoughSuffice, Alike};

pub fn outcomes_compose()
    ensures { Composes }
{}

// With enough cells a call does not depart from the machine.
pub fn enough_cells_suffice()
    ensures { EnoughSuffice }
{}

// Calls over any two pairs of stores that both agree with the machine agree with each other.
pub fn agreed_calls_are_alike()
    ensures { Alike }
{}
