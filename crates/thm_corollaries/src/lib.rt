// What demands 1 to 3 give together over lists of calls. No code.
#![tactic(auto)]
