// Lines of a schedule in order.
ghost use Rattle.std.specs.Prelude.{◌≡◌, [], ◌∷◌, ◌++◌, OnOk, OnErr};

use crate::step_lines::StepLine;
use std::alloc::{AllocError, Global};
use std::marker::Model;

/// Lines of a schedule in order.
#[derive(Drop)]
pub struct StepLines {
    items: Vec<StepLine>,
}

impl Model for StepLines {
    ghost use Rattle.std.specs.Prelude.{List};
    ghost use Rattle.step_text.specs.declared.step_lines.StepLine.{StepLine};

    ghost Value = { List StepLine };

    ghost view = { λ l. l.items.items };
}

impl StepLines {
    /// The empty list, which takes no memory.
    pub fn new(alloc: Global) -> StepLines
        ensures { result ≡ [] }
    {
        StepLines {
            items: Vec::new(alloc),
        }
    }

    /// One more at the end. Where memory is refused the list is as it was.
    pub fn push(&mut self, line: StepLine) -> Result<(), AllocError>
        ensures ok { OnOk result (self.new ≡ self.old ++ line ∷ []) }
        ensures err { OnErr result (self.new ≡ self.old) }
    {
        self.items.push(line)?;
        Ok(())
    }

    /// The lines in order.
    pub fn as_slice(&self) -> &[StepLine]
        ensures { result.now ≡ self.now }
    {
        &self.items
    }

    /// The lines, which takes no memory.
    pub fn into_items(self) -> Vec<StepLine>
        ensures { result.items ≡ self }
    {
        let StepLines { items } = self;
        items
    }
}
