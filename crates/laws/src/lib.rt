// What follows from the specification, as theorems: see proofs/, and specs/ for what they ask of tables, meshes and chunks.
#![tactic(auto)]
