// Worked values, proved of the definitions.
ghost use Rattle.console.specs.Worked.{Worked};

// Holds the statement; it computes nothing.
#[tactic(auto, using(crate::proofs::Values::worked))]
pub fn worked_values()
    ensures { Worked }
{}
