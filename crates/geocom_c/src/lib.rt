//! The client and the session for C, C++ and Python: a static library over `gc_client` and `gc_session`, with the names of `library/include/geocom.h`. The state
//! is the caller's: plain bytes of a fixed size. Whatever they hold, a call returns. No call takes memory, starts a thread
//! or opens anything. A pointer and a length stand for a slice.
#![tactic(auto)]

mod answers;
mod asking;
mod beginning;
mod calls;
mod columns;
mod described;
mod describing;
mod feeding;
mod following;
mod header;
mod hearing;
pub mod laws;
mod listed;
mod raws;
mod rest;
mod sends;
mod session_state;
mod sessions;
mod settled;
mod sign_on;
mod state;
mod stepping;

pub use answers::{
    GeocomBeginning, GeocomCount, GeocomDeadline, GeocomHeard, GeocomStatus, GeocomStep,
};
pub use asking::{geocom_session_ask, geocom_session_ask_raw};
pub use beginning::geocom_client_synchronize;
pub use calls::{
    geocom_client_expire, geocom_client_init, geocom_client_next_deadline,
    geocom_client_outstanding, geocom_version,
};
pub use columns::GeocomColumn;
pub use described::{GeocomAnswer, geocom_description_reply};
pub use describing::{GeocomDescription, geocom_description_params, geocom_description_read};
pub use feeding::{geocom_client_feed, geocom_client_restart};
pub use following::{StateCall, follow};
pub use header::numbers_are_the_headers;
pub use hearing::geocom_session_feed;
pub use listed::GeocomItem;
pub use raws::geocom_client_send_raw;
pub use rest::GeocomRest;
pub use sends::geocom_client_send;
pub use session_state::GeocomSession;
pub use sessions::{
    geocom_session_closed, geocom_session_init, geocom_session_opened, geocom_session_restart,
    geocom_session_status,
};
pub use settled::GeocomSettlement;
pub use sign_on::geocom_is_sign_on;
pub use state::{GeocomClient, GeocomWaiting};
pub use stepping::geocom_session_next;
