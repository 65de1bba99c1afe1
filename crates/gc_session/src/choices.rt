//! What is next of a client on a connection that is ready: all rules on that are here, for any type whose values name what may be next.

ghost use Rattle.std.specs.Prelude.{◌≡◌};
ghost use Rattle.gc_session.specs.Choices.{next_flush, next_room, next_synchronizing, next_to_send, next_waiting};

use crate::exchange::Exchange;
use crate::load::Load;

/// What may be next, each as a value of the caller's own. Beside these the caller has requests to send.
#[derive(Clone, Copy)]
pub struct Choices<A> {
    /// To close the connection, whose line is dead.
    pub close: A,
    /// To synchronize anew: all outstanding requests are lost.
    pub renew: A,
    /// To read.
    pub read: A,
    /// To send a null procedure: its reply settles requests that have all timed out, or a request goes after it.
    pub flush: A,
    /// To send the null procedure of the first id of the synchronization that isn't answered, for the first time or again.
    pub null: A,
}

impl<A: Copy> Choices<A> {
    /// What is next if nothing may be sent: to close a dead line; to synchronize anew, if all outstanding requests have timed out; and else
    /// to read, as a reply may still come.
    pub fn waiting(&self, load: Load, exchange: &Exchange) -> A
        ensures { result ≡ next_waiting self.now load exchange.now }
    {
        if exchange.is_dead(load) {
            self.close
        } else if load.current == 0 {
            self.renew
        } else {
            self.read
        }
    }

    // `send`, which sends a request, if there is room for one and the line isn't dead; else what is next if nothing may be sent.
    fn room(&self, load: Load, exchange: &Exchange, send: A) -> A
        ensures { result ≡ next_room self.now load exchange.now send }
    {
        if exchange.has_room(load) && !exchange.is_dead(load) {
            send
        } else {
            self.waiting(load, exchange)
        }
    }

    /// What is next if nothing but a null procedure may be sent: to send one, if all outstanding requests have timed out or none is
    /// outstanding, and there is room; its reply settles them. Else what is next if nothing may be sent.
    pub fn flush(&self, load: Load, exchange: &Exchange) -> A
        ensures { result ≡ next_flush self.now load exchange.now }
    {
        if load.current == 0 {
            self.room(load, exchange, self.flush)
        } else {
            self.waiting(load, exchange)
        }
    }

    /// What is next if a request is to be sent, by `send`: it is, if one of the seven requests before it is a call of the table that a reply
    /// ended, there is room, and the line isn't dead. Else a null procedure goes before it, as after each synchronization.
    pub fn to_send(&self, load: Load, exchange: &Exchange, send: A) -> A
        ensures { result ≡ next_to_send self.now load exchange.now send }
    {
        if exchange.is_near() {
            self.room(load, exchange, send)
        } else {
            self.flush(load, exchange)
        }
    }

    /// What is next while the client synchronizes: to read until the null procedure that was sent last has timed out, and the wait after a
    /// busy answer is over; then to close a dead line; and else to send the null procedure of the first id that isn't answered.
    pub fn synchronizing(&self, load: Load, exchange: &Exchange) -> A
        ensures { result ≡ next_synchronizing self.now load exchange.now }
    {
        if !exchange.may_ask(load.now) {
            self.read
        } else if exchange.is_dead(load) {
            self.close
        } else {
            self.null
        }
    }
}
