// No code: lines and texts of tables as cases, in specs/, computed in proofs/. A wrong answer put into a case is an edit whose check
// is short.
#![tactic(auto)]
