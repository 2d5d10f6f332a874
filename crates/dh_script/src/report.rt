//! Which lines of a script were refused, and why.

use crate::reasons::Reason;
use std::alloc::{AllocError, Global};

/// A line of a script that was refused.
#[derive(Clone, Copy, Debug, PartialEq, Eq)]
pub struct RefusedLine {
    /// Which line it is, from 1; empty lines and comments count.
    pub number: usize,
    pub reason: Reason,
}

/// Which lines of a script were refused. Where memory is out, lines are left out of the report.
#[derive(Drop)]
pub struct Report {
    /// How many lines were cut off the script.
    lines: usize,
    /// The numbers of those that have words.
    numbers: Vec<usize>,
    /// How many of these ran.
    ran: usize,
    refused: Vec<RefusedLine>,
}

impl Report {
    /// Makes a report of no line.
    pub fn new(alloc: Global) -> Report {
        Report {
            lines: 0,
            numbers: Vec::new(alloc),
            ran: 0,
            refused: Vec::new(alloc),
        }
    }

    /// The lines that were refused, in their order.
    pub fn refused(&self) -> &[RefusedLine] {
        self.refused.as_slice()
    }

    /// Notes that one more line was cut off the script.
    pub(crate) fn count_line(&mut self) {
        self.lines = self.lines.saturating_add(1);
    }

    /// Notes that the line that was cut last has words, and so will run.
    pub(crate) fn expect(&mut self) -> Result<(), AllocError> {
        self.numbers.push(self.lines)?;
        Ok(())
    }

    /// Notes that the next of the lines ran, and why it was refused, where it was.
    pub(crate) fn note(&mut self, reason: Option<Reason>) {
        let number = self.numbers.get(self.ran).copied();
        self.ran = self.ran.saturating_add(1);
        match (reason, number) {
            (Some(reason), Some(number)) => {
                let _ = self.refused.push(RefusedLine { number, reason });
            }
            _ => {}
        }
    }
}
