// Every refusal has a number of the table: definitions and a theorem only.
#![tactic(auto)]
