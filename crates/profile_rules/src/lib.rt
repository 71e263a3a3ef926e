// Writing and loading the settings profile (the papers' settings sheet): what writing returns to C.
// Its form is profile_form_rules'.
// What they mean stands in specs/, and the theorems in proofs/.
#![tactic(auto)]

// What writing returns.
// Numbers, not a Result: C takes this struct as it is.
// Of the fields of ddcci's BuiltNumbers: each library for C has a struct of its own.
#[repr(C)]
#[derive(Clone, Copy)]
pub struct Written {
    // The answer number.
    pub answer: u8,
    // How many bytes were written.
    pub len: usize,
}
