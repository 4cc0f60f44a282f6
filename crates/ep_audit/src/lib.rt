//! Tells of a list of records whether the machine allows it.
#![tactic(auto)]

mod auditor;
mod steps;
mod verdict;

pub use crate::auditor::Auditor;
pub use crate::verdict::{AuditFault, audit, audit_history};
