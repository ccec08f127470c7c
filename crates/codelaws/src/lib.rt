// Laws of the code of a meaning, of the definitions alone: specs/ states them, proofs/ proves them. No code.
#![tactic(auto)]
