//! What a session does next. All decisions are made here, by looking at nothing else.

ghost use Rattle.std.specs.Prelude.{◌≡◌, Option, ℕ};
ghost use Rattle.gc_client.specs.Rule.{IsEarliest, deadlines};
ghost use Rattle.gc_session.specs.Sessions.{IsActFor, all_of, load_of, next_of, next_ready, until_in, until_deadline, wanted_of};
ghost use Rattle.gc_session.specs.Sessions;

use crate::choices::Choices;
use crate::exchange::Exchange;
use crate::load::Load;
use crate::next::Next;
use crate::session::Session;
use crate::settings::{Act, Want};
use crate::standing::Phase;

// What may be next on a connection that is ready.
const CHOICES: Choices<Next> = Choices {
    close: Next::Close,
    renew: Next::Renew,
    read: Next::Read,
    flush: Next::Flush,
    null: Next::Null,
};

impl Session {
    // What counts of the session's requests.
    fn load(&self) -> Load
        ensures { result ≡ load_of self.now }
    {
        Load {
            width: self.settings.width,
            patience: self.standing.patience,
            now: self.standing.moment,
            all: self.client.waiting(),
            current: self.client.current(),
        }
    }

    // What is next on a connection that is ready.
    fn next_ready(&self, want: Want) -> Next
        ensures { result ≡ next_ready want self.now }
    {
        let (load, exchange) = (self.load(), &self.standing.exchange);
        let begun = exchange.has_begun();
        match want {
            Want::Nothing => Next::Read,
            Want::Answers => {
                if begun {
                    CHOICES.flush(load, exchange)
                } else {
                    CHOICES.synchronizing(load, exchange)
                }
            }
            Want::Send => {
                if begun {
                    CHOICES.to_send(load, exchange, Next::Ask)
                } else {
                    CHOICES.synchronizing(load, exchange)
                }
            }
        }
    }

    // What counts as wanted: without an outstanding request no answers are.
    fn wanted(&self, want: Want) -> Want
        ensures { result ≡ wanted_of want (all_of self.now) }
    {
        match want {
            Want::Answers => {
                if self.client.waiting() > 0 {
                    Want::Answers
                } else {
                    Want::Nothing
                }
            }
            _ => want,
        }
    }

    // What is next.
    pub(crate) fn next(&self, want: Want) -> Next
        ensures { result ≡ next_of want self.now }
    {
        let want = self.wanted(want);
        match self.standing.phase {
            Phase::Down => match want {
                Want::Nothing => Next::Wait,
                _ => Next::Open,
            },
            Phase::Pausing => Next::Wait,
            Phase::Clearing => match want {
                Want::Nothing => Next::Read,
                _ => Next::Clear,
            },
            Phase::Draining => Next::Read,
            Phase::Ready => self.next_ready(want),
        }
    }

    // Until when what is next lasts at most.
    fn until(&self, want: Want) -> u64
        ensures { (earliest : Option ℕ) × IsEarliest (deadlines self.now.client.waiting) earliest
            × (result ≡ until_in self.now.standing.phase want earliest self.now) }
    {
        let earliest = until_deadline(self.client.next_deadline());
        let exchange = &self.standing.exchange;
        match self.standing.phase {
            Phase::Down => u64::MAX,
            Phase::Pausing => exchange.past_at(exchange.pause),
            Phase::Draining => exchange.past_at(self.settings.quiet),
            _ => until_ready(want, earliest, exchange),
        }
    }

    // What the caller does for what is next.
    pub(crate) fn act_for(&self, next: Next, want: Want) -> Act
        requires { next ≡ next_of want self.now }
        ensures { IsActFor want self.now result }
    {
        let until = self.until(self.wanted(want));
        match next {
            Next::Open => Act::Open,
            Next::Wait => Act::Wait(until),
            Next::Clear => Act::Clear,
            Next::Null | Next::Flush | Next::Renew => Act::Put,
            Next::Ask => Act::Ask,
            Next::Read => Act::Read(until),
            Next::Close => Act::Close,
        }
    }
}

// The moment of an earliest deadline; the greatest `u64` if there is none.
fn until_deadline(earliest: Option<u64>) -> u64
    ensures { result ≡ until_deadline earliest }
{
    match earliest {
        Some(deadline) => deadline,
        None => u64::MAX,
    }
}

// Until when a read waits on a connection that is ready; `earliest` is that of the outstanding requests.
fn until_ready(want: Want, earliest: u64, exchange: &Exchange) -> u64
    ensures { (deadline : Option ℕ) → earliest ≡ Sessions.until_deadline deadline → result ≡ Sessions.until_ready want deadline exchange.now }
{
    match want {
        Want::Nothing => earliest,
        _ => {
            if exchange.has_begun() {
                earliest
            } else {
                exchange.asks_at()
            }
        }
    }
}
