// What may go between threads.
use crate::histories::Growing;
use crate::passes::Pass;
use crate::turnstiles::Turnstile;

fn is_sync<T: Sync>(_x: &T) {}

fn is_send<T: Send>(_x: &T) {}

/// Threads may share a turnstile whose value may be sent.
pub fn shares<V: Growing + Send>(turnstile: &Turnstile<V>) {
    is_sync(turnstile);
}

/// A pass may be sent to another thread where the value may be.
pub fn sends<V: Growing + Send>(pass: &Pass<V>) {
    is_send(pass);
}
