// The starred sums of document 01, of the definitions alone: specs/ has the table and its proof. No code.
#![tactic(auto)]
