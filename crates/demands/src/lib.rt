// The mission's three demands, said of the calls: definitions and laws alone.
#![tactic(auto)]
