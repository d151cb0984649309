// What may be signed: the three demands, document 01's cases, and the wrong programs that no contract lets through. Theorems only: they stand in
// specs/ (what is said) and proofs/ (why it holds). docs/STATEMENT.md says it in plain words, and leads from each sentence to its theorem.
#![tactic(auto)]
