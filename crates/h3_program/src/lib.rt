//! The program `h3`, except for what only the system can give: the words and the streams.
#![tactic(auto)]

mod before_run;
mod file;
mod program;
mod retried;
mod system;

pub use before_run::BeforeRun;
pub use file::{NamedFile, OpenFault, OpenFile, OpenFiles};
pub use program::run_words;
pub use retried::Retried;
pub use system::SystemFiles;
