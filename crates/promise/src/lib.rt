// What the resolver's buffers say: T1, T2, T3 and what else follows from `scope::resolve`'s contract. No code.
#![tactic(auto)]
