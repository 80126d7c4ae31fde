// Runs of lists, the process of Table 2, and demand 3. Definitions and theorems only: there is no code.
#![tactic(auto)]
