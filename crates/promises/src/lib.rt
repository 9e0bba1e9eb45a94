// The promises of the software as theorems about its definitions. Nothing runs here: specs/ has the statements, proofs/ shows them.
#![tactic(auto)]
