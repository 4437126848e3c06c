//! Machines that take the bytes of inputs in chunks and give outputs in parts, and the one loop that runs any of them.
#![tactic(auto)]

mod in_chunk;
mod machine;
mod recalled;
mod running;
mod streams;
mod two_inputs;

pub use crate::in_chunk::InChunk;
pub use crate::machine::{Machine, Next};
pub use crate::running::{run, run_streams};
pub use crate::streams::{Inputs, NoOutput, OneInput, OneOutput, Outputs};
pub use crate::two_inputs::TwoInputs;
