//! What the program does at words that need no server: a script that is played, a store that is listed, a configuration or a
//! store that is checked, and what is asked of a manager or of a realm's control port.
#![tactic(auto)]

mod asking;
mod checking;
mod playing;
mod settings;
mod store;

pub use asking::{ask_control, ping, query, send, settle};
pub use checking::check;
pub use playing::play_all;
pub use settings::{SettingFault, settings_in};
pub use store::list_store;
