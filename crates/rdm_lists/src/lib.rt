//! Lists, orders and finite sums: the definitions and lemmas that several crates cite. It has no code.
#![tactic(auto)]
