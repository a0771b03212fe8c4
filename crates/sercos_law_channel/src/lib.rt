//! Laws, and no code: one service channel with both its ends, over all runs of one drive and the master. Each move and each transfer
//! is exact, and a request is answered within a stated number of cycles.
#![tactic(auto)]

mod handshake_laws;
mod pace_laws;

pub use handshake_laws::{exact_law, handshake_law, parts_law, run_law, transfer_law, values_law};
pub use pace_laws::{
    calls_law, cost_law, jobs_law, passage_law, passes_law, stretch_law, time_law,
};
