// Laws of the lines of a SAP header, of the definitions alone: specs/ and proofs/ state and prove them.
// No code.
#![tactic(auto)]
