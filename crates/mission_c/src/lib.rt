// The calls for C that write, open, step, look up, recover and repair, each under a promise in the words of
// crates/claims_c.
#![tactic(auto)]

mod reading;
mod writing;
