//! Two turns of a client over links in memory do the same, if the clients were alike.
//!
//! Read [`a_turn_of_a_client_is_a_function`] first, the law of a turn. The others say that new clients are
//! alike, that they stay so by the tags that they are given and by taking their gifts, and that alike clients
//! tell the same. The words are `specs/Twins.antt`. If a byte or refused memory has ended a client, the law
//! leaves free the bytes that it still had to send. The crate has no code that runs.
#![tactic(auto)]

mod laws;

pub use laws::{
    a_turn_of_a_client_is_a_function, alike_clients_tell_the_same,
    clients_that_are_given_the_same_stay_alike, clients_whose_gifts_are_taken_stay_alike,
    two_new_clients_are_alike,
};
