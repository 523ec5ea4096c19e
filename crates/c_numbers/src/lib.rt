// What C is told, in numbers: of an answer, of a written request, of a checked reply. It exports nothing.
#![tactic(auto)]

pub mod exchange; // exchange.rt: a request written, a reply checked
pub mod numbers; // numbers.rt: an answer
