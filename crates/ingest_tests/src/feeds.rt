// Feeds, and what they come to.
use std::alloc::{AllocError, Global};

fn put(text: &mut Vec<u8>, bytes: &[u8]) -> Result<(), AllocError> {
    text.extend_from_slice(bytes)?;
    Ok(())
}

fn put_row(alloc: Global, text: &mut Vec<u8>, lower: u64, i: u64) -> Result<(), AllocError> {
    let time = lower.saturating_add(i % 10);
    let line = format!(in alloc; "{time} 1 d{i}\n")?;
    put(text, line.as_bytes())
}

/// So many appends of so many rows each, ten times long, and then questions.
pub fn appends(
    alloc: Global,
    count: u64,
    rows: u64,
    questions: &[u8],
) -> Result<Vec<u8>, AllocError> {
    let mut text = Vec::new(alloc);
    for j in 0..count {
        let lower = j.saturating_mul(10);
        let upper = lower.saturating_add(10);
        let head = format!(in alloc; "append {lower} {upper}\n")?;
        put(&mut text, head.as_bytes())?;
        for i in 0..rows {
            put_row(alloc, &mut text, lower, i)?;
        }
        put(&mut text, b".\n")?;
    }
    put(&mut text, questions)?;
    Ok(text)
}

/// Twenty appends of thirteen rows, and two questions.
pub fn twenty(alloc: Global) -> Result<Vec<u8>, AllocError> {
    appends(alloc, 20, 13, b"snapshot 199\nlisten 189\n")
}

/// What they come to.
pub const REPLIES: &[u8] =
    b"20 d0\n20 d1\n20 d10\n20 d11\n20 d12\n20 d2\n20 d3\n20 d4\n20 d5\n20 d6\n20 d7\n20 d8\n20 d9\n.\n190 1 d0\n190 1 d10\n191 1 d1\n191 1 d11\n192 1 d12\n192 1 d2\n193 1 d3\n194 1 d4\n195 1 d5\n196 1 d6\n197 1 d7\n198 1 d8\n199 1 d9\nupto 200\n";
