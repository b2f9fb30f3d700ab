// What more than one crate cites: counting, in specs/, and laws, in proofs/. They know nothing of the paper, and there is no code.
#![tactic(auto)]
