// Laws of pairs, of the definitions alone: specs/ states them and proofs/ proves them. No code.
#![tactic(auto)]
