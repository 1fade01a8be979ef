// Graphs, paths, the rank of a path, the chosen path, and the laws about them: definitions and proofs in specs/, no code.
#![tactic(auto)]
