// What a checked statement list means: its types and its statements, and the bytes of a list. There is no code here.
#![tactic(auto)]
