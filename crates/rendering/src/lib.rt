// Faithful renderings, the judge, and the translation. Definitions and theorems only: there is no code.
#![tactic(auto)]
