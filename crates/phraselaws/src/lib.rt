// What phrase 16 left as it was, of the definitions alone: specs/ has the earlier table, proofs/ the
// statements and their proofs. No code.
#![tactic(auto)]
