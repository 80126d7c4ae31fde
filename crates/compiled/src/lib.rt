// What compiling gives is in form, so a reader of lists takes it and reads the translation back. There is no code here.
#![tactic(auto)]
