// Demand 3, from texts to texts: specs/ says it, proofs/ proves it from the rules' definitions. No code that runs.

#![tactic(auto)]
