// What a run of an accepted list on a checked trace keeps: demand 3. Theorems only: there is no code.
#![tactic(auto)]
