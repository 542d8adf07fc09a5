// Each public call has one answer. Nothing of it is code: the statement is in specs/, its proof in proofs/.
#![tactic(auto)]
