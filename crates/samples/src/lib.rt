// Nothing to run: specs/ has document 01's sample table, and proofs/ the theorem that each row holds.
#![tactic(auto)]
