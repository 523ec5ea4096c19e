// Laws of every packet that is signed and read back, request and reply alike. No code.
#![tactic(auto)]
