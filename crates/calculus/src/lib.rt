// Terms, steps and tables, Figure 2, and inference. Definitions and theorems only: there is no code.
#![tactic(auto)]
