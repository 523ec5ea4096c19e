// What the exports for tests and benchmarks answer, and the laws of their two answers. No code: the crates of exports are static libraries, and none can rest on another.
#![tactic(auto)]
