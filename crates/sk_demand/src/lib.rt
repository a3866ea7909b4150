//! Which tiles of recorded calls a run needs, which kernels that makes, and what a trace has to be beside legal. Definitions
//! alone: they stand in `specs/`.
#![tactic(auto)]
