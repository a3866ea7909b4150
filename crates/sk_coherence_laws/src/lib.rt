//! What is seen of a directory of copies, what each of its calls changes and which steps it notes, in `specs/`; and laws on
//! these definitions, in `proofs/`. There is no code.
#![tactic(auto)]
