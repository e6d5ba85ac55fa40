// What the library must hold to, over every list of a writer's calls and every cut: definitions and theorems only.
#![tactic(auto)]
