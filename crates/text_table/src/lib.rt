// The table that a text stands for, as a file: which numbers can arise, and what accepted tables give the writer. Statements and theorems only: there is no code.
#![tactic(auto)]
