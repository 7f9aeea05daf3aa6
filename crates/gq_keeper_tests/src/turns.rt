//! A watcher that counts.

use crate::Register;
use gq_keeper::Watch;

/// How often a register took lines, and how often it held one then.
#[derive(Drop)]
pub struct Turns {
    /// How often it took lines.
    pub all: usize,
    /// How often it held a line behind them.
    pub holding: usize,
}

impl Watch<Register> for Turns {
    fn took(&mut self, register: &Register) {
        self.all = self.all.saturating_add(1);
        if !register.text().is_empty() {
            self.holding = self.holding.saturating_add(1);
        }
    }
}
