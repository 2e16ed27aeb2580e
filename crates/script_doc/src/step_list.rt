ghost use Rattle.std.specs.Prelude.{◌≡◌, length};

use crate::step::Step;
use std::marker::Model;

/// Steps in the order in which they are taken. Contracts see the list.
#[derive(Drop)]
pub struct StepSequence {
    items: Vec<Step>,
}

impl Model for StepSequence {
    ghost use Rattle.std.specs.Prelude.{List};
    ghost use Rattle.script_doc.specs.declared.step.Step.{Step};

    ghost Value = { List Step };

    ghost view = { λ steps. steps.items.items };
}

impl StepSequence {
    /// The list of these steps.
    pub fn of(items: Vec<Step>) -> StepSequence
        ensures { result ≡ items.items }
    {
        StepSequence { items }
    }

    /// The steps, in the order in which they are taken.
    pub fn items(&self) -> &[Step]
        ensures { result.now ≡ self.now }
    {
        &self.items
    }
}

/// Numbers of lines, from 1. Contracts see the list.
#[derive(Drop)]
pub struct LineNumbers {
    items: Vec<u32>,
}

impl Model for LineNumbers {
    ghost use Rattle.std.specs.Prelude.{ℕ, List};

    ghost Value = { List ℕ };

    ghost view = { λ lines. lines.items.items };
}

impl LineNumbers {
    /// The list of these numbers.
    pub fn of(items: Vec<u32>) -> LineNumbers
        ensures { result ≡ items.items }
    {
        LineNumbers { items }
    }

    /// The numbers of the lines, from 1, in the order of the steps.
    pub fn items(&self) -> &[u32]
        ensures { result.now ≡ self.now }
    {
        &self.items
    }
}

/// Steps, and for each the number of the line that it is on.
#[derive(Drop)]
pub struct StepList {
    pub steps: StepSequence,
    pub lines: LineNumbers,
    pub ghost one_line_each: { length lines ≡ length steps },
}
