// The serial execution (document 01's plain book), and demand 3. No code.
#![tactic(auto)]
