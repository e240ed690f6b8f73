// The bench cases C1 to C12. There is no code here: the table and its claim are in specs/, the proof in proofs/.
