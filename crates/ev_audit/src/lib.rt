//! Native auditors, and what an audition tells of an object that is being made.
#![tactic(auto)]

pub mod auditions;
pub mod auditors;
pub mod guards;
pub mod rules;
pub mod stamps;
pub mod views;
mod words;

pub use auditions::{AuditionAsk, audition_ask, bound_of, guard_at, guard_value};
pub use auditors::{AuditorSet, NativeAuditor};
pub use ev_heap::{AuditView, Bound, FreeName};
pub use ev_prims::Rule;
pub use guards::{is_frozen, is_near};
pub use rules::{deep_frozen_test, functional_test, selfless_test};
pub use stamps::audited_by;
pub use views::free_name;
