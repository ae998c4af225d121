// The three demands as theorems: see specs/ for what is promised and proofs/ for the proofs.
#![tactic(auto)]
