// Nothing to run: specs/ states what holds of every result whatever rounding did, and proofs/ shows it.
#![tactic(auto)]
