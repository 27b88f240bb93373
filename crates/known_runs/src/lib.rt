// The tables of runs have no code of their own: what they say is in specs/, of the machine's own definitions.
#![tactic(auto)]
