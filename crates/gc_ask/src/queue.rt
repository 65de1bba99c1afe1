//! The callers who wait at a port. The next one is accepted once the one before was served, or earlier, where it has to be known
//! whether there is one.

use gc_links::accept;
use std::cell::RefCell;
use std::io;
use std::net::{TcpListener, TcpStream};

/// The callers of a port, in the order in which they called.
#[derive(Drop)]
pub(crate) struct CallerQueue<'a> {
    listener: &'a TcpListener,
    // The next caller, if he was accepted already.
    next: RefCell<Option<TcpStream>>,
}

impl<'a> CallerQueue<'a> {
    /// The callers of the port at which this listens.
    pub(crate) fn new(listener: &'a TcpListener) -> CallerQueue<'a> {
        CallerQueue {
            listener,
            next: RefCell::new(None),
        }
    }

    /// Waits for the next caller, unless he was accepted already. It fails where the system can't accept one.
    pub(crate) fn next(&self) -> io::Result<TcpStream> {
        if let Ok(mut next) = self.next.try_borrow_mut() {
            if let Some(stream) = next.take() {
                return Ok(stream);
            }
        }
        accept(self.listener)
    }

    /// Whether a caller waits now, who is accepted then. It doesn't wait for one.
    pub(crate) fn has_next(&self) -> bool {
        let Ok(mut next) = self.next.try_borrow_mut() else {
            return false;
        };
        if next.is_none() {
            *next = accept_now(self.listener);
        }
        next.is_some()
    }
}

// Accepts the next caller if one waits. `None`: none does, or the system can't accept him.
fn accept_now(listener: &TcpListener) -> Option<TcpStream> {
    listener.set_nonblocking(true).ok()?;
    let accepted = accept(listener).ok();
    // If this fails, later accepts fail while nobody calls, and are made again after a pause.
    let _ = listener.set_nonblocking(false);
    accepted
}
