// Laws of lists that know no graph, no table and no text: definitions and proofs in specs/, no code.
#![tactic(auto)]
