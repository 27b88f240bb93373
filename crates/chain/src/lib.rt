// The chain theorem has no code of its own: what it says is in specs/, of the machine's own definitions.
#![tactic(auto)]
