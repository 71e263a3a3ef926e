// Document 01's worked examples that are marked [P], proved together.
// The table stands in specs/, its proof in proofs/. There is no function here.
#![tactic(auto)]
