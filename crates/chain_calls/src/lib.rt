// The theorems of the C calls have no code of their own: what they say is in specs/, of the calls' own promises.
#![tactic(auto)]
