// The public entries, under one roof. None asks anything of its caller: whatever is given, the answer and all lent memory are what
// document 01 says.
#![tactic(auto)]

pub mod end;
pub mod find;
pub mod record;
pub mod stream;

pub use read_records::Found;
pub use read_streams::Checked;
pub use reading::{Refusal, Refused};
pub use writing::Unwritten;
