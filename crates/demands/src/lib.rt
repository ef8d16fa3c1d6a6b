// The three demands, said of the calls by their contracts: see proofs/Demands.antt. There is no code here.
#![tactic(auto)]
