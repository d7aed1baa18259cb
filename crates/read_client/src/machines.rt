// A reader as a machine that is polled.
ghost use Rattle.read_client.specs.Machining.{machine};

use crate::readers::Reader;
use history_core::ReadAnswer;
use load_core::Poll;
use machine_core::Machine;
use std::alloc::{AllocError, Global};
use store_core::{Call, Reply};

impl Machine for Reader {
    type Answer = ReadAnswer;

    ghost words = { machine };

    fn prepare(&mut self, alloc: Global) -> Result<(), AllocError> {
        if self.reading.asked.is_none() {
            self.trying.prepare(alloc)?;
        }
        Ok(())
    }

    fn next_call(&self) -> Result<Call, AllocError> {
        if self.reading.asked.is_some() {
            return self.reading.next_call();
        }
        self.trying.next_call()
    }

    fn react(&mut self, alloc: Global, reply: Reply) -> Result<Poll<ReadAnswer>, AllocError> {
        let poll = self.reaction(alloc, reply)?;
        self.settle(&poll);
        Ok(poll)
    }
}
