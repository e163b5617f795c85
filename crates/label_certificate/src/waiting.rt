//! Numbers that wait to be taken, each once.
ghost use Rattle.std.specs.Prelude.{◌≡◌, ◌<◌, [], OnOk, IfOk};
ghost use Rattle.std.specs.List.{range_with_len};
ghost use Rattle.label_certificate.specs.Waiting.{IsTaken, with_number};

use cosem_data::memory::Memory;
use std::alloc::Global;
use std::collections::VecDeque;
use std::marker::Model;

/// Numbers below a bound that wait in a queue, each once. Contracts see the bound and the numbers, in the order in which they
/// are taken.
#[derive(Drop)]
pub(crate) struct Waiting {
    numbers: VecDeque<usize>,
    marks: Vec<bool>,
}

impl Model for Waiting {
    ghost use Rattle.label_certificate.specs.Waiting.{Numbers};

    ghost Value = { Numbers };

    ghost use Rattle.std.specs.Prelude.{length};
    ghost use Rattle.label_certificate.specs.Waiting.{AreMarked};

    ghost view = { λ w. record { bound = length w.marks.items; waiting = w.numbers.items } };

    ghost invariant = { λ w. AreMarked w.numbers.items w.marks.items };
}

impl Waiting {
    /// Each number below the bound, the least one first. The only error is want of memory.
    pub(crate) fn all(alloc: Global, bound: usize) -> Result<Waiting, Memory>
        ensures { IfOk result (λ w. w ≡ record { bound = bound; waiting = range_with_len 0 bound }) }
    {
        let mut numbers = VecDeque::with_capacity(alloc, bound)?;
        for number in 0..bound {
            numbers.push_back(number)?;
        }
        let marks = vec![in alloc; true; bound]?;
        Ok(Waiting { numbers, marks })
    }

    /// Lets a number wait behind the others, unless it waits already. The only error is want of memory.
    pub(crate) fn add(&mut self, number: usize) -> Result<(), Memory>
        requires { number < self.old.bound }
        ensures { OnOk result (self.new
            ≡ record { bound = self.old.bound; waiting = with_number self.old.waiting number }) }
    {
        if self.marks[number] {
            return Ok(());
        }
        self.numbers.push_back(number)?;
        self.marks[number] = true;
        Ok(())
    }

    /// Takes the number that has waited longest, or None if none waits.
    pub(crate) fn take(&mut self) -> Option<usize>
        ensures { IsTaken self.old self.new result }
    {
        let number = self.numbers.pop_front()?;
        self.marks[number] = false;
        Some(number)
    }
}
