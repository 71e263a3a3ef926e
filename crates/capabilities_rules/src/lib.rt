// The limits of reading a capabilities string (the papers' capability text).
// What the strings mean stands in specs/, and the theorems in proofs/.
#![tactic(auto)]

pub mod limits;
