// No functions: facts on lists and numbers stand in specs/.
#![tactic(auto)]
