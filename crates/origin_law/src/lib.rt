//! An edge and the session of its origin, over the bytes between them.
//!
//! Read [`relayed_bytes_law`]: it joins the law of a client that plays (`client_law`) to that of an edge's
//! calls (`origin_calls`). The crate has no code that runs.
#![tactic(auto)]

mod laws;

pub use laws::relayed_bytes_law;
