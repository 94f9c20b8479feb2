// The promises: the demands' sentences, each a theorem of what the public calls give, in specs/. It has no code.
#![tactic(auto)]
