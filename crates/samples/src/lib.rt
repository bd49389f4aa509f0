// Small runs computed to their end: where workers meet, and the errors that look reasonable. Statements and proofs; no code.
#![tactic(auto)]
