// No code: specs/Page.antt gathers what is proved, a line for each theorem.
#![tactic(auto)]
