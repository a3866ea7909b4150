//! Which ranges a part of a call reads, which kernels run it, and whether it fits in a memory. Definitions alone: they stand in
//! `specs/`.
#![tactic(auto)]
