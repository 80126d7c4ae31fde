// What checked bytes mean. Definitions and theorems only: there is no code.
#![tactic(auto)]
