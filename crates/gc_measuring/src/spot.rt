//! Where a station works and by which settings, with what is noticed there while it does.

use gc_logs::{Noticed, tell_place};
use gc_options::{Settings, Site};
use gc_texts::RunFault;
use std::cell::Cell;
use std::io::{self, Write};

/// Where a station works, by which settings, and what is noticed there.
#[derive(Clone, Copy)]
pub struct Spot<'a> {
    pub site: Site<'a>,
    pub station: Settings,
    pub noticed: &'a Cell<Noticed>,
    /// Why the system refused what it refused last (`Noting::reason`).
    pub reason: &'a Cell<Option<io::Error>>,
}

impl<'a> Spot<'a> {
    /// Notes the fault for which the run stopped, or couldn't begin.
    pub fn note_fault(self, fault: RunFault) {
        let seen = self.noticed.get();
        self.noticed.set(Noticed {
            fault: Some(fault),
            ..seen
        });
    }

    /// Whether the error that the system returned last may explain how the run ended: if the fault that was noted is that the
    /// system refused the place (`Socket`, `Forbidden`, `NoTerminal`), or if no fault was noted. So it is, too, where the log or
    /// the file of records can't be had, and where the run ended without a fault.
    pub fn has_system_reason(self) -> bool {
        match self.noticed.get().fault {
            None => true,
            Some(fault) => matches!(
                fault,
                RunFault::Socket | RunFault::Forbidden | RunFault::NoTerminal
            ),
        }
    }

    /// Writes a line with the place and the reason, if the fault that was noted is one of those that [`tell_place`] explains, and
    /// else nothing.
    pub fn report<E: Write>(self, messages: &mut E) -> io::Result<()> {
        match self.noticed.get().fault {
            Some(fault) => tell_place(self.site.place, fault, messages),
            None => Ok(()),
        }
    }
}
