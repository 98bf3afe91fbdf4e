//! What passes from one vat to others, and the notes that are put for them.
#![tactic(auto)]

pub mod address;
pub mod deliver;
pub mod draw;
pub mod interior;
pub mod laws;
pub mod measure;
pub mod note;
pub mod pass;
pub mod post;

pub use draw::Swiss;
pub use interior::{Interior, Stop};
pub use note::{Note, Passed, Reference};
pub use post::Post;
