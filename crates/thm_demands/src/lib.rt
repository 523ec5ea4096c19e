// The owner's demands as records, proved. No code.
#![tactic(auto)]
