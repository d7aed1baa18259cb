// What a schedule has come to.
use crate::clients::Client;

/// The clients that a schedule has made so far, in the order of their making, the current moment, and how many polls its lines have
/// asked for.
#[derive(Drop)]
pub struct Scene {
    pub clients: Vec<Client>,
    pub moment: u64,
    pub polls: u64,
}
