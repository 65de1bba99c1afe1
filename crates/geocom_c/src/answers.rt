//! What a call of the C library returns, in plain fields.

ghost use Rattle.std.specs.Prelude.{◌≡◌, ◌↔◌};
ghost use Rattle.geocom_c.specs.Beginning.{unbegun_with};
ghost use Rattle.geocom_c.specs.Feeding.{unheard_with};
ghost use Rattle.geocom_c.specs.SessionState.{flag_byte};
ghost use Rattle.geocom_c.specs.Stepping.{unmoved_with};

use crate::header::MORE;
use crate::state::NULLS;

/// A fault or 0, and a count of bytes, targets, records or requests, as the call says: 0 after a fault.
#[repr(C)]
#[derive(Clone, Copy)]
pub struct GeocomCount {
    pub fault: u32,
    pub count: u32,
}

/// A fault or 0, and the earliest deadline, a moment by the caller's clock, where `is_set` is 1. Otherwise `is_set`
/// and `deadline` are 0.
#[repr(C)]
#[derive(Clone, Copy)]
pub struct GeocomDeadline {
    pub deadline: u64,
    pub fault: u32,
    pub is_set: u32,
}

/// What `geocom_client_synchronize` returns: a fault or 0, how many bytes of a line are to be sent, and how far the synchronization is.
/// After a fault all other fields are 0.
#[repr(C)]
#[derive(Clone, Copy)]
pub struct GeocomBeginning {
    pub fault: u32,
    /// How many bytes of the line, with its CR LF; 0: none is sent now.
    pub count: u32,
    /// How many null procedures are answered, of eight.
    pub answered: u32,
    /// 1 once all eight are answered; otherwise 0.
    pub has_begun: u32,
}

/// What came of a feed: a fault or 0, how many bytes were used, what they ended, and how many requests were settled. After a
/// fault all other fields are 0.
#[repr(C)]
#[derive(Clone, Copy)]
pub struct GeocomHeard {
    /// How many bytes were used: those through the first line feed, or all if there is none.
    pub used: usize,
    pub fault: u32,
    /// How many records were written.
    pub count: u32,
    /// What the bytes ended: [`MORE`] to [`OVERLONG`](crate::header::OVERLONG).
    pub kind: u32,
    /// Of a line that is no reply, the fault of its first faulty field, 1 to 5; otherwise 0.
    pub line_fault: u32,
}

/// What `geocom_session_next` returns: a fault or 0, and what the caller does next. After a fault all other fields are 0.
#[repr(C)]
#[derive(Clone, Copy)]
pub struct GeocomStep {
    /// Until when the caller waits or reads at most; the greatest `u64`: there is no limit. 0 for any other act.
    pub until: u64,
    pub fault: u32,
    /// What the caller does: [`OPEN`](crate::header::OPEN) to [`CLOSE`](crate::header::CLOSE).
    pub act: u32,
    /// How many bytes of the line are to be written; 0 if none are.
    pub bytes: u32,
    /// How many records were written: all that was outstanding is lost, if the session resynchronizes.
    pub count: u32,
}

/// What `geocom_session_status` returns: a fault or 0, and how far a session is. After a fault all other fields are 0.
#[repr(C)]
#[derive(Clone, Copy)]
pub struct GeocomStatus {
    /// How often a connection was closed or couldn't be made, or the session resynchronized: what is sent at one number is sent over one
    /// connection after one synchronization.
    pub interruptions: u64,
    /// How many sign-ons came since the first request was asked.
    pub sign_ons: u64,
    pub fault: u32,
    /// 1 if the session has a connection; otherwise 0.
    pub is_up: u32,
    /// 1 if it has synchronized, its connection is quiet, and nothing called for another synchronization; otherwise 0.
    pub is_ready: u32,
    /// How many requests are outstanding, those that timed out included.
    pub outstanding: u32,
    /// How many outstanding requests haven't timed out.
    pub current: u32,
}

// The fault of a step that did nothing; all other fields are 0.
pub(crate) fn unmoved(fault: u32) -> GeocomStep
    ensures { result ≡ unmoved_with fault }
{
    GeocomStep {
        until: 0,
        fault,
        act: 0,
        bytes: 0,
        count: 0,
    }
}

// A flag as a number.
pub(crate) fn as_number(flag: bool) -> u32
    ensures { result ≡ flag_byte flag }
{
    u32::from(flag)
}

// Success, with a count.
pub(crate) fn counted(count: u32) -> GeocomCount
    ensures fault { result.fault ≡ 0 }
    ensures count { result.count ≡ count }
{
    GeocomCount { fault: 0, count }
}

// A fault, with a count of 0.
pub(crate) fn refused(fault: u32) -> GeocomCount
    ensures fault { result.fault ≡ fault }
    ensures count { result.count ≡ 0 }
{
    GeocomCount { fault, count: 0 }
}

// Success: `count` bytes of a line are to be sent, and `answered` null procedures are answered so far.
pub(crate) fn synchronizing(count: u32, answered: u8) -> GeocomBeginning
    ensures fault { result.fault ≡ 0 }
    ensures count { result.count ≡ count }
    ensures answered { result.answered ≡ answered }
    ensures begun { (result.has_begun ≡ 1) ↔ (answered ≡ 8) }
{
    GeocomBeginning {
        fault: 0,
        count,
        answered: u32::from(answered),
        has_begun: u32::from(answered == NULLS),
    }
}

// The fault of a synchronization that heard nothing; all other fields are 0.
pub(crate) fn unbegun(fault: u32) -> GeocomBeginning
    ensures { result ≡ unbegun_with fault }
{
    GeocomBeginning {
        fault,
        count: 0,
        answered: 0,
        has_begun: 0,
    }
}

// Success of a feed of this kind (`MORE` to `OVERLONG`), which wrote no records and found no fault in a line. `used` is 0 here;
// `using` sets it.
pub(crate) fn heard(kind: u32) -> GeocomHeard
    ensures { result ≡ record { used = 0; fault = 0; count = 0; kind = kind; line_fault = 0 } }
{
    GeocomHeard {
        used: 0,
        fault: 0,
        count: 0,
        kind,
        line_fault: 0,
    }
}

// The fault of a feed that used nothing; all other fields are 0.
pub(crate) fn unheard(fault: u32) -> GeocomHeard
    ensures { result ≡ unheard_with fault }
{
    GeocomHeard {
        fault,
        ..heard(MORE)
    }
}

// The outcome of a feed with the number of bytes that it used.
pub(crate) fn using(used: usize, told: GeocomHeard) -> GeocomHeard
    ensures { result ≡ record told { used = used } }
{
    GeocomHeard { used, ..told }
}
