//! The program `artmap`, over any reader and writer: [`run`] replies to lines over a map.
#![tactic(auto)]

mod command;
mod error;
mod laws;
mod output;
mod pieces;
mod program;
mod replies;
mod session;
mod text;
mod watched;

pub use error::RunError;
pub use laws::{key_text_law, number_text_law};
pub use program::run;
pub use watched::Watched;
