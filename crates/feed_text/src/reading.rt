// A whole text from a source.
ghost use Rattle.std.specs.Prelude.{◌≡◌, ◌<◌, ◌≤◌, ◌+◌, ℕ, List, ◌++◌, length, vec_len, IfOk, OnErr};
ghost use Rattle.causes.specs.Causes.{Rose};
ghost use Rattle.feed_text.specs.Streams.{Takes, AtEnd, Grows, TakesAll, ReadsUpTo};

use crate::read_faults::ReadFault;
use crate::sources::Source;
use std::alloc::{AllocError, Global};

/// The bytes that one read is given room for.
const PIECE: usize = 65_536;

// One read, whose bytes go to the end of the text. Where memory is refused for them, they are lost.
fn read_piece<So: Source>(
    source: &mut So,
    room: &mut [u8],
    text: &mut Vec<u8>,
) -> Result<usize, ReadFault>
    requires { 0 < length room.old }
    ensures reading { ReadsUpTo (length room.old) (So.left source.old) (So.left source.new) (So.reads source.old) (So.reads source.new) }
    ensures ok { IfOk result (λ n. (n ≤ length room.old) × Grows (So.left source.old) (So.left source.new) text.old.items text.new.items n) }
    ensures once { So.reads source.new ≤ So.reads source.old + 1 }
    ensures end { IfOk result (λ n. n ≡ 0 → AtEnd (So.left source.new)) }
    ensures cause { result ≡ Err ReadFault.Source → Rose (So.faults source.old) (So.faults source.new) }
    ensures later { So.faults source.old ≤ So.faults source.new }
{
    let count = source.read(room)?;
    text.extend_from_slice(&room[..count])?;
    Ok(count)
}

// One read of at most so many bytes.
fn read_more<So: Source>(
    source: &mut So,
    piece: &mut [u8],
    wanted: usize,
    text: &mut Vec<u8>,
) -> Result<usize, ReadFault>
    requires room { 0 < length piece.old }
    requires wanted { 0 < wanted }
    ensures reading { ReadsUpTo wanted (So.left source.old) (So.left source.new) (So.reads source.old) (So.reads source.new) }
    ensures ok { IfOk result (λ n. (n ≤ wanted) × Grows (So.left source.old) (So.left source.new) text.old.items text.new.items n) }
    ensures once { So.reads source.new ≤ So.reads source.old + 1 }
    ensures end { IfOk result (λ n. n ≡ 0 → AtEnd (So.left source.new)) }
    ensures cause { result ≡ Err ReadFault.Source → Rose (So.faults source.old) (So.faults source.new) }
    ensures later { So.faults source.old ≤ So.faults source.new }
{
    let room = piece.len().min(wanted);
    read_piece(source, &mut piece[..room], text)
}

// So many zeros.
fn zeros(alloc: Global, count: usize) -> Result<Vec<u8>, AllocError>
    ensures { IfOk result (λ zeros. vec_len zeros ≡ count) }
{
    vec![in alloc; 0u8; count]
}

/// The bytes of a source up to its end, or the first `limit` of them. It fails where a read fails, or for want of memory.
pub fn read_up_to<So: Source>(
    alloc: Global,
    source: &mut So,
    limit: usize,
) -> Result<Vec<u8>, ReadFault>
    ensures text { IfOk result (λ text. TakesAll limit (So.left source.old) (So.left source.new) text.items) }
    ensures reading { ReadsUpTo limit (So.left source.old) (So.left source.new) (So.reads source.old) (So.reads source.new) }
    ensures cause { result ≡ Err ReadFault.Source → Rose (So.faults source.old) (So.faults source.new) }
    ensures later { So.faults source.old ≤ So.faults source.new }
{
    let mut text = Vec::new(alloc);
    let mut piece = zeros(alloc, PIECE)?;
    while text.len() < limit {
        let wanted = limit - text.len();
        if read_more(source, &mut piece, wanted, &mut text)? == 0 {
            return Ok(text);
        }
    }
    Ok(text)
}
