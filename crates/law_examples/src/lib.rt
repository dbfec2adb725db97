// The marked examples of document 01, m1 to m12: one table (specs/Marked.antt) under a single statement (proofs/Table.antt). No code.

#![tactic(auto)]
