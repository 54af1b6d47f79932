// Whatever is called of any number of sides and notaries, the promise of the whole holds of what their tables show.
#![tactic(auto)]

ghost use Rattle.refinement.specs.Calls.{CallsFair, OneAsked, Alone};

// Any sequence of calls is a run of the world, and the promise holds of what the tables show.
pub fn calls_fair()
    ensures { CallsFair }
{}

// There are such calls.
pub fn calls_met()
    ensures { OneAsked }
{}

// A step in one exchange touches no other.
pub fn alone()
    ensures { Alone }
{}
