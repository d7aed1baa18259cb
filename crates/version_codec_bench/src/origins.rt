// Versions to change.
use crate::answers::Answer;
use anyhow::{Context, Result, bail};
use std::alloc::Global;
use store_core::ShardId;
use version_codec::{VersionFault, decode_version, encode_version};

/// A version to change: the shard and the number under which it lies, and its bytes.
#[derive(Drop)]
pub struct Origin {
    pub shard: ShardId,
    pub number: u64,
    pub bytes: Vec<u8>,
}

impl Origin {
    /// The version of a line: shard, number and hex, with a space between.
    pub fn of(alloc: Global, line: &str) -> Result<Origin> {
        let mut words = line.split_whitespace();
        let shard = words.next().context("a shard")?;
        let number = words.next().context("a number")?;
        let Ok(bytes) = hex::decode(alloc, words.next().context("bytes")?) else {
            bail!("the bytes are no hex");
        };
        Ok(Origin {
            shard: ShardId(shard.parse::<u128>().context("a shard is a number")?),
            number: number.parse::<u64>().context("a number has digits")?,
            bytes,
        })
    }

    /// What these bytes are, where they lie in its place.
    pub fn answer(&self, alloc: Global, bytes: &[u8]) -> Result<Answer> {
        let answer = match decode_version(alloc, self.shard, self.number, bytes) {
            Ok((state, step)) => {
                let spelled = encode_version(alloc, &state, &step)?;
                if spelled.as_slice() == bytes {
                    Answer::Ok
                } else {
                    Answer::Respelled
                }
            }
            Err(VersionFault::Short { place }) => Answer::Short(place),
            Err(VersionFault::Magic { place }) => Answer::Magic(place),
            Err(VersionFault::Form { place }) => Answer::Form(place),
            Err(VersionFault::Tag { place }) => Answer::Tag(place),
            Err(VersionFault::Rule { place }) => Answer::Rule(place),
            Err(VersionFault::Trailing { place }) => Answer::Trailing(place),
            Err(VersionFault::Memory) => bail!("out of memory"),
        };
        Ok(answer)
    }
}
