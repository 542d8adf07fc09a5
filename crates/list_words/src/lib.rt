// Nothing to run. specs/ has the words on lists in which the other crates' definitions are written.
#![tactic(auto)]
