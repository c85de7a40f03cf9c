// Demand 3 and the bench figures, each one theorem over the definitions that the contracts cite.
#![tactic(auto)]
