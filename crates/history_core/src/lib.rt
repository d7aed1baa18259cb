//! Histories of calls: what a client may do, what a store stands for, and which answers are legal.
#![tactic(auto)]

mod accepting;
pub mod answer_laws;
mod asked;
mod collect_answers;
mod expire_answers;
pub mod lasting_laws;
pub mod laws;
pub mod member_laws;
mod merge_answers;
pub mod part_laws;
mod read_answers;
pub mod stretch_laws;
pub mod taken_laws;
mod walks;
mod write_answers;

pub use accepting::accepted;
pub use asked::Asked;
pub use collect_answers::CollectAnswer;
pub use expire_answers::ExpireAnswer;
pub use merge_answers::MergeAnswer;
pub use read_answers::ReadAnswer;
pub use write_answers::WriteAnswer;
