// Laws of both sides: a request that is written passes the gate's checks and reads back as given, and a reply passes the billing server's. No code.
#![tactic(auto)]
