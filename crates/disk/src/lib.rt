// The disk that a cut leaves of a writer's stores, and what recovery, repair and opening find there: definitions and
// laws only.
#![tactic(auto)]
