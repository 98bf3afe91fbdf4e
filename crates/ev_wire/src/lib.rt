//! Notes of a vat as operations of its frames, and frames as the notes that they say, by the tables of a connection.
#![tactic(auto)]

pub mod describing;
pub mod fault;
pub mod hearing;
pub mod hearing_laws;
pub mod learnt;
pub mod names;
pub mod news;
pub mod numbering;
pub mod outbox;
pub mod peer_laws;
pub mod sight;
pub mod taking;
pub mod values;
pub mod writing;
pub mod writing_laws;

pub use fault::HearFault;
pub use hearing::{hear, hear_frame};
pub use learnt::LearntTable;
pub use news::{Hearing, News};
pub use outbox::{Outgoing, write_all};
pub use sight::sight_of;
pub use taking::take_in;
pub use writing::{WriteFault, write};
