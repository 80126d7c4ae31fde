// The types: their order, greatest lower bounds, and bytes. Definitions and theorems only: there is no code.
#![tactic(auto)]
