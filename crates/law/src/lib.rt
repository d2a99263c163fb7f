// The law over histories. Each function does nothing: its contract is the theorem.

#![tactic(auto)]

ghost use Rattle.law.specs.Law.{Lawful, RefusalsChangeNothing};

// No guarantee is ever booked twice, lost or invented: the law holds at every history whose answers are the
// judgements.
pub fn law_stands()
    ensures { Lawful }
{}

// A refused call changes nothing that a later call is judged by.
pub fn refusals_change_nothing()
    ensures { RefusalsChangeNothing }
{}
