// The rules of FERP certificates (#101) stand in specs/, as definitions beside those of crate `rules`, and their theorems in proofs/.
#![tactic(auto)]
