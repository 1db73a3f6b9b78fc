//! What reads texts, as the language of programs does.

pub use flow_model::texts::Texts;
