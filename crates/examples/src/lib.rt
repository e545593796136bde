// No functions: the worked examples of document 01 are in specs/, and that they hold is proved in proofs/.
#![tactic(auto)]
