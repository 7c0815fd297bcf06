// No functions: the theorems about the network text stand in specs/.
#![tactic(auto)]
