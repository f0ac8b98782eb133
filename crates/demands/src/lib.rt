// No code: proofs/ has the demands over the calls themselves. Each call of hestovane enters by its own contract and by nothing else.
#![tactic(auto)]
