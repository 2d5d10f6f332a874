//! The constraints of the answers to retry keys, each judged by itself.

ghost use Rattle.std.specs.Prelude.{◌↔◌, IfOk, IsTrue};
ghost use Rattle.dh_constraints.specs.Keys.{IsFitKey};

use crate::answers::tells_answer;
use crate::lookups::is_host_among;
use crate::projects::Projects;
use dh_records::RetryRow;
use std::alloc::{AllocError, Global};

/// Whether an answer to a retry key keeps the constraints beside these projects: its host has a project, and its text is read as
/// an answer to its operation.
pub fn is_fit_key(alloc: Global, projects: &Projects, row: &RetryRow) -> Result<bool, AllocError>
    ensures { IfOk result (λ b. IsTrue b ↔ IsFitKey projects.now.rows.items row.now) }
{
    if is_host_among(projects.rows.as_slice(), &row.host) {
        tells_answer(alloc, row.op, row.answer.as_str())
    } else {
        Ok(false)
    }
}
