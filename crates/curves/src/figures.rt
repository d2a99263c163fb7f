// The figures that the rules mark.
ghost use Rattle.curves.specs.Figures.{MarkedFigures};

// The definitions give every marked figure.
#[tactic(auto, unfolding(crate::specs::Levels::guarantees, crate::specs::Obligations::obligation_in_guarantees))]
pub fn marked_figures()
    ensures { MarkedFigures }
{}
