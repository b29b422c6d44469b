//! The search for a valid text that meets literals: terms that the text has to be in, or must not be in. It finds
//! such a text, or lists words that show that there is none, or lists one word more than it was allowed.
#![tactic(auto)]

mod best_first;
mod listing;
mod seeking;
mod seen;
mod spelling;
mod step;

pub use rx_auto::Words;
pub use rx_joint::{Joint, Literal};
pub use seeking::{seek, seek_among};
pub use seen::Seen;
