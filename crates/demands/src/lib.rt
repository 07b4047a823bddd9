// No code: what whole runs of the layout's calls promise, in specs/, and its proof, in proofs/.
#![tactic(auto)]
