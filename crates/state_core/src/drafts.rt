// Draft: the fields of a state.
use crate::member_lists::MemberList;
use spine_core::Spine;
use store_core::ShardId;
use update_core::Frontier;

/// The fields of a state, as far as they are known. They need not keep the rules of states yet.
#[derive(Drop)]
pub struct Draft {
    pub shard: ShardId,
    pub number: u64,
    pub next_member: u64,
    pub since: u64,
    pub upper: Frontier,
    pub weight: u64,
    pub members: MemberList,
    pub spine: Spine,
}
