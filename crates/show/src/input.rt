// What a program can say of an input that gave no byte.

use std::io::Read;

// Returns whether an input can be read: one that has ended can, a directory or a closed one cannot.
pub fn readable<R: Read>(from: &mut R) -> bool {
    let mut one = [0u8; 1];
    from.read(&mut one).is_ok()
}
