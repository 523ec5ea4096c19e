// Document 01's marked examples: a table of theorems over the definitions, with no code of its own.
#![tactic(auto)]
