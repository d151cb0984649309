// What a library says, apart from how its bytes lie, and how it grows. Definitions and laws only: they stand in specs/ and proofs/.
#![tactic(auto)]
