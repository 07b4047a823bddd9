// No code: plain words on lists that the statements of several crates use, in specs/, and their laws, in proofs/.
#![tactic(auto)]
