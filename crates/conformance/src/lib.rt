// That the display of display_rules is a conforming display in the sense of transfer_rules, which demand 3 speaks of. There are no functions here: the statement
// stands in specs/, its proof in proofs/.
#![tactic(auto)]
