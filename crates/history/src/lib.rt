// Demand 3 over every list of calls: the statement is in specs/, its proof in proofs/. There is no code here.
#![tactic(auto)]
