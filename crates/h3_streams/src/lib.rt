//! The streams that the `h3` command runs over, of which a contract can say the bytes.
#![tactic(auto)]

mod counted;
pub mod laws;
mod stream;

pub use counted::CountedReader;
pub use stream::{Sink, Source, StreamFault, Streamed};
