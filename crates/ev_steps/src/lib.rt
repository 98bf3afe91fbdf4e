//! What evaluation does in one step, in the code's terms: what `E`, `Ref` and resolvers do, `==`, and what each node does by these.
#![tactic(auto)]

pub mod binders;
pub mod handing;
pub mod lifting;
pub mod matchers;
pub mod matches;
pub mod message;
pub mod open;
pub mod parts;
pub mod pattern;
pub mod promise;
pub mod resolver;
pub mod same;
pub mod sending;
pub mod target;
pub mod telling;

pub use message::{Request, message_in};
pub use promise::{broken, make_promise};
pub use resolver::{Resolving, call_resolver, resolver_answer};
pub use same::same_ever;
pub use sending::{send_with, when_by};
pub use telling::test_value;
