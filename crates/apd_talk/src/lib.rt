//! A conversation: what is said to the lines of an input, and how it ends; what lines mean while a question waits; what
//! says things, each an entry of the log and its text on the sink; and what a conversation goes on over.
#![tactic(auto)]

mod desk;
mod laws;
mod talk;
mod voice;

pub use desk::Desk;
pub use laws::a_talker_awaits;
pub use talk::{Ending, Next, Trouble};
pub use voice::Voice;
