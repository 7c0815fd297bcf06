// No functions: the meaning of document 01 stands in specs/.
#![tactic(auto)]
