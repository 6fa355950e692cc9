//! What is stored elsewhere than in RAM outside the stack region.

ghost use Rattle.gb_summaries.specs.Elsewhere as Elsewhere;

/// The law of stores elsewhere: what is said of the whole program holds as before.
#[tactic(auto, using(crate::proofs::ElsewhereLaws::stays_elsewhere))]
pub fn stays_elsewhere()
    ensures { Elsewhere.StaysElsewhere }
{}
