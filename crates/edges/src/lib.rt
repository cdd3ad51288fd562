// 01's edges P1 to P10: the table is in specs/, the theorem that settles it in proofs/. There is no code here.
#![tactic(auto)]
