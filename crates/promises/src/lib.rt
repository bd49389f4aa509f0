// What the definitions of one call promise. Statements and proofs; no code.
#![tactic(auto)]
