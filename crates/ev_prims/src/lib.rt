//! What lists, texts, integers and the other values of the language answer.
#![tactic(auto)]

pub mod arithmetic;
pub mod asking;
pub mod data;
mod flags;
mod forms;
mod integers;
mod letters;
mod lists;
pub mod order;
mod places;
pub mod primitives;
pub mod problem;
pub mod ranges;
pub mod reply;
mod sizes;
mod texts;
mod verbs;

pub use asking::{Asked, RefTest, ask};
pub use data::data_reply;
pub use order::{Test, compare};
pub use primitives::{Guard, Kind, Primitive, Rule, primitive_of};
pub use problem::Problem;
pub use ranges::range;
pub use reply::Reply;
