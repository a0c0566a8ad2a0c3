//! Which banks a log leaves open.
use command_words::{Bank, Command, covers};

/// Whether each of the 32 banks is open, by its number.
#[derive(Clone, Copy, Debug, PartialEq, Eq)]
pub(crate) struct OpenBanks {
    banks: [bool; 32],
}

impl OpenBanks {
    /// All banks are closed.
    pub(crate) fn none() -> Self {
        OpenBanks { banks: [false; 32] }
    }

    /// Takes a command: an ACT opens its bank, and a precharge closes those that it covers.
    pub(crate) fn take(&mut self, command: &Command) {
        match command {
            Command::Act(bank, _) => self.banks[usize::from(bank.number())] = true,
            Command::PrePb(_) | Command::PreSb(_) | Command::PreAb => self.close(command),
            _ => {}
        }
    }

    /// Whether a bank is open.
    pub(crate) fn is_any(&self) -> bool {
        self.banks.iter().any(|is_open| *is_open)
    }

    // Closes the banks that a precharge covers.
    fn close(&mut self, command: &Command) {
        for number in 0..32u8 {
            if covers(command, Bank::numbered(number)) {
                self.banks[usize::from(number)] = false;
            }
        }
    }
}
