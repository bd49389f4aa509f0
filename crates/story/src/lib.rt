// What holds over every sequence of calls. Statements and proofs; no code.
#![tactic(auto)]
