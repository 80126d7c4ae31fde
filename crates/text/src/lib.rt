// Tables that can be read aloud: the text of a table, what a text stands for, and how it is read and written. Definitions and theorems only: there is no code.
#![tactic(auto)]
