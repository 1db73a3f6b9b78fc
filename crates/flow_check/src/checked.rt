//! The programs that `check` gives.

pub use flow_model::checked::Checked;
