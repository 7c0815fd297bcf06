// No functions: the theorems about the definitions stand in specs/ and proofs/.
#![tactic(auto)]
