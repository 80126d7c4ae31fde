// Document 01's marked examples E1 to E12, as one statement over one table of them. Definitions and theorems only: there is no code.
#![tactic(auto)]
