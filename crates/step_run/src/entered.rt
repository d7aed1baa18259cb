// A client that was made.
use crate::clients::Client;
use crate::sayings::Saying;

/// A client that was made, and what it says.
#[derive(Drop)]
pub struct Entered {
    pub client: Client,
    pub said: Option<Saying>,
}
