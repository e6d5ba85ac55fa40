// The calls of include/hplog.h under the claims: definitions and theorems only.
#![tactic(auto)]
