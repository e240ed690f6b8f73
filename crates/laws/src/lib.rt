// General laws on searches, lists and bytes. There is no code here: the definitions are in specs/, the laws in proofs/.

#![tactic(auto)]
