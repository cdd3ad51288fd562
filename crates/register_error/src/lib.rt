// How far an error of the register can move frame 1's frequency: the claim is in specs/, its proof in proofs/. There is no code here.
#![tactic(auto)]
