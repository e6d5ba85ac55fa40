// The calls that write, open, step, look up, recover and repair, each under a promise in the claims' own words: where a
// call's promise changes, these no longer hold.
#![tactic(auto)]

mod reading;
mod recovering;
mod writing;

ghost use Rattle.mission.specs.Mission.{Mission};

// What the library must hold to, as the promise of a function: it is proved where all of it is.
pub fn hold()
    ensures { Mission }
{}
