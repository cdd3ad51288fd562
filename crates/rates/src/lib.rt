// No code: specs/ has the numbers that the Rust works out from the rate, proofs/ what they are as whole numbers.
#![tactic(auto)]
