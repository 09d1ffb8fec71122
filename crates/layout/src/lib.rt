// The definition of all bodies, and its laws: specs/ has what a person must believe, proofs/ what follows. No code.
#![tactic(auto)]
