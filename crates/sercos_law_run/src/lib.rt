//! Laws, and no code: what every run of a ring keeps, over every link, every script of faults and every restart.
#![tactic(auto)]

mod agenda_laws;
mod bounds_laws;
mod headline_laws;
mod journal_laws;
mod recovery_laws;
mod settings_laws;
mod slots_laws;
mod start_laws;
mod station_laws;
mod tolerance_laws;
mod totals_laws;
mod typed_laws;
mod undisturbed_laws;

pub use agenda_laws::{agenda_law, channel_law, report_law, stop_law};
pub use bounds_laws::bound_law;
pub use headline_laws::{headline_law, once_law};
pub use journal_laws::run_law;
pub use recovery_laws::recovery_law;
pub use settings_laws::settings_law;
pub use slots_laws::slot_law;
pub use start_laws::{
    answer_law, cause_law, held_values_law, own_block_law, ring_slot_law, start_up_law,
    store_of_law,
};
pub use station_laws::{fall_law, fit_law, phase_law, station_law};
pub use tolerance_laws::tolerance_law;
pub use totals_laws::{plan_law, totals_law};
pub use typed_laws::{harmless_law, typed_law};
pub use undisturbed_laws::undisturbed_law;
