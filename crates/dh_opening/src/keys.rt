//! Answers to retry keys that are judged row by row; none is kept.

ghost use Rattle.std.specs.Prelude.{◌≡◌, false, [], IfOk, IfSome, IsTrue, None};
ghost use Rattle.dh_opening.specs.RetryKeys.{FindsNextKey, KeepsFitKey, TookKeys};
ghost use Rattle.dh_opening.specs.Rows.{IsNext};

use crate::gathering::Taker;
use crate::kept::record_in;
use crate::rows::is_next;
use dh_constraints::{Projects, is_fit_key};
use dh_records::RetryRow;
use sqlite::Row;
use std::alloc::{AllocError, Global};

/// The answers to retry keys of some rows, as long as each row keeps one that keeps the constraints beside the projects.
#[derive(Drop)]
pub struct JudgedKeys {
    projects: Projects,
    last: Option<Row>,
    are_kept: bool,
}

/// Whether a row keeps an answer to a retry key that keeps the constraints beside the projects.
fn keeps_key(alloc: Global, projects: &Projects, row: &Row) -> Result<bool, AllocError>
    ensures some { IfOk result (λ b. IsTrue b → (x : RetryRow)
        × KeepsFitKey projects.now.rows.items row.now x) }
    ensures none { IfOk result (λ b. b ≡ false → (x : RetryRow)
        → ¬ KeepsFitKey projects.now.rows.items row.now x) }
{
    match record_in::<RetryRow>(alloc, row)? {
        Some(key) => is_fit_key(alloc, projects, &key),
        None => Ok(false),
    }
}

impl JudgedKeys {
    /// Starts with no row.
    pub fn beside(projects: Projects) -> JudgedKeys
        ensures { (result.projects ≡ projects) × TookKeys result result [] }
    {
        JudgedKeys {
            projects,
            last: None,
            are_kept: true,
        }
    }

    /// Judges a row: answers whether it keeps the next answer, and one that keeps the constraints.
    fn finds(&mut self, alloc: Global, row: &Row) -> Result<bool, AllocError>
        ensures same { self.new.projects ≡ self.old.projects }
        ensures some { IfOk result (λ b. IsTrue b → FindsNextKey self.old self.new row.now) }
        ensures none { IfOk result (λ b. b ≡ false → IsNext self.old.last row.now
            → (x : RetryRow) → ¬ KeepsFitKey self.old.projects.rows.items row.now x) }
    {
        if !is_next(self.last.as_ref(), row) || !keeps_key(alloc, &self.projects, row)? {
            return Ok(false);
        }
        self.last = Some(row.copy()?);
        Ok(true)
    }

    /// Gives the projects back; none where some row kept no next answer that keeps the constraints.
    pub fn into_projects(self) -> Option<Projects>
        ensures some { IfSome result (λ p. IsTrue self.are_kept × (p ≡ self.projects)) }
        ensures none { result ≡ None → self.are_kept ≡ false }
    {
        if self.are_kept {
            Some(self.projects)
        } else {
            None
        }
    }
}

impl Taker for JudgedKeys {
    ghost took = { TookKeys };

    fn take(&mut self, alloc: Global, row: &Row) -> Result<(), AllocError> {
        if self.are_kept {
            self.are_kept = self.finds(alloc, row)?;
        }
        Ok(())
    }
}
