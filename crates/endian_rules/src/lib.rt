// Numbers of one, two and four bytes in either byte order, and signed words. There is no code here: see specs/ and proofs/.
//
// One definition over order and width, `number_at`, says what is read, and one encoding, `encode`, what is written. That the
// code reads the number in either order and at every width rests on one fact, `number-sum` of proofs/Places.antt.
#![tactic(auto)]

// The byte order of a file: the most significant byte of a number first, or the least significant.
#[derive(Clone, Copy, Debug, PartialEq, Eq)]
pub enum Order {
    Big,
    Little,
}
