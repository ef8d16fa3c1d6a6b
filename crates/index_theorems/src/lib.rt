// What is proved of the calls of index, over their contracts: see proofs/. There is no code here.
#![tactic(auto)]
