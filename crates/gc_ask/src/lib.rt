//! Commands asked over a link, one at a time; and an instrument served to callers, over connections and devices.
#![tactic(auto)]

mod address;
mod ask;
mod busy_clock;
mod caller;
mod callers;
mod client_end;
mod connections;
mod devices;
mod instrument_end;
mod kept_port;
pub mod laws;
mod link;
mod looped;
mod queue;
mod shown;
mod simulated;
mod slow;
mod unused;

pub use address::Address;
pub use ask::run_ask;
pub use busy_clock::BusyClock;
pub use callers::{CallerFault, Callers, keep};
pub use connections::{
    MOST_CONNECTIONS, ask_at, ask_tcp, fault_of_reason, fault_of_unusable, loop_tcp, loop_tcp_on,
    serve_on, serve_tcp,
};
pub use devices::{keep_device, serve_device};
pub use kept_port::{Keeping, keep_on, keep_tcp};
pub use looped::{Duplex, run_loop, run_loop_on};
pub use shown::{Shown, write_shown};
pub use simulated::Simulates;
pub use slow::Slow;
