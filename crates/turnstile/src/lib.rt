//! A turnstile passes one value between threads by turns, and each of them sees a beginning of the value's one history.
#![tactic(auto)]

mod counts;
mod histories;
pub mod laws;
mod lends;
mod passes;
mod plays;
mod rules;
mod sharing;
mod threads;
mod turns;
mod turnstiles;
mod views;

pub use histories::Growing;
pub use passes::Pass;
pub use sharing::SplitFault;
pub use threads::{sends, shares};
pub use turns::Held;
pub use turnstiles::Turnstile;
