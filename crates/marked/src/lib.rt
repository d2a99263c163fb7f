// The marked figures of the rules.

#![tactic(auto)]

ghost use Rattle.marked.specs.Marked.{Marked};

use curves::marked_figures;
use settlement::marked_settlement;

// The definitions give every figure that the rules mark.
pub fn every_marked_figure()
    ensures { Marked }
{
    marked_figures();
    marked_settlement();
}
