// General logic for proofs: tests computed over a range, joined tests, cases on a test. No code.
#![tactic(auto)]
