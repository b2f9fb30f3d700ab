// What splitting a herd on paper can gain or lose, as theorems, in proofs/. There is no code.
#![tactic(auto)]
