// Any series of calls on a sealed image: definitions and laws alone, no code.
#![tactic(auto)]
