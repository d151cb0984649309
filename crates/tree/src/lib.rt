// The tree's definitions and laws, for any metric: specs/ and proofs/. Nothing here runs.
#![tactic(auto)]
