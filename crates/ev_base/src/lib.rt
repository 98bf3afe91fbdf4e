//! Types and helpers that every crate speaks of: numbers of things, names, texts, lists, the nouns and verbs of trees, and the safe scope.
#![tactic(auto)]

pub mod ids;
pub mod memory;
pub mod names;
pub mod safe_scope;
pub mod seq;
pub mod shared_text;
pub mod text;
pub mod values;
pub mod word;

pub use ids::{ActId, ListId, MsgId, NodeId, ObjId, PrimId, PromId, SlotId, TextId, VatId};
pub use memory::{Limits, Memory};
pub use names::{Msg, Name};
pub use safe_scope::safe_value;
pub use seq::Seq;
pub use shared_text::Text;
pub use text::Str;
pub use values::Value;
pub use word::Word;
