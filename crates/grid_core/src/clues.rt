//! Clues.

ghost use Rattle.std.specs.Prelude.{◌≡◌, ℕ, List, [], ◌∷◌, ◌++◌, true, false, IfOk, OnErr, OnOk, IsErrOf, ◌↔◌};
ghost use Rattle.std.specs.List.{list_all};
ghost use Rattle.grid_core.specs.Clues.{is_clue, is_run};

use crate::NoMemory;
use crate::limits::{MAX_RUNS, MAX_SIDE};
use smallvec::SmallVec;
use std::alloc::{AllocError, Global};
use std::marker::Model;
use thiserror::Error;

/// The error of making a clue, or of appending a number to one.
#[derive(Clone, Copy, Debug, PartialEq, Eq, Error)]
pub enum ClueFault {
    /// There are more than 128 numbers, or one of them is 0 or greater than 256.
    #[error("a clue has at most 128 numbers, each from 1 to 256")]
    BadNumber,
    /// An allocation failed.
    #[error("out of memory")]
    NoMemory,
}

/// The lengths of a line's runs, in order: at most 128 numbers, each from 1 to 256. The clue of a
/// line without filled cells is empty.
#[derive(Debug)]
pub struct Clue {
    numbers: SmallVec<u16, 8>,
}

/// Written by hand so that callers' proofs see one call: a derived drop is expanded at each exit of
/// each caller.
impl Drop for Clue {
    fn drop(self) {
        let Clue { numbers: _ } = self;
    }
}

impl Model for Clue {
    ghost use Rattle.std.specs.Prelude.{◌≡◌, ℕ, List, true};
    ghost use Rattle.grid_core.specs.Clues.{is_clue};
    ghost use Rattle.grid_core.specs.declared.limits.TheConstants.{MAX_SIDE};

    ghost Value = { List ℕ };

    ghost view = { λ clue. clue.numbers.items };

    ghost invariant = { λ clue. is_clue MAX_SIDE clue.numbers.items ≡ true };
}

impl Clue {
    /// Returns the clue of these numbers. Fails with `BadNumber` if there are more than 128, or one
    /// is 0 or greater than 256, and otherwise with `NoMemory` if an allocation fails.
    pub fn from_numbers(alloc: Global, numbers: &[u16]) -> Result<Clue, ClueFault>
        ensures ok { IfOk result (λ clue. clue ≡ numbers.now) }
        ensures clue { OnOk result (is_clue MAX_SIDE numbers.now ≡ true) }
        ensures bad_number { IsErrOf result ClueFault.BadNumber
            ↔ (is_clue MAX_SIDE numbers.now ≡ false) }
    {
        if !is_clue(numbers) {
            return Err(ClueFault::BadNumber);
        }
        match SmallVec::from_slice(alloc, numbers) {
            Ok(numbers) => Ok(Clue { numbers }),
            Err(_) => Err(ClueFault::NoMemory),
        }
    }

    /// Returns the empty clue.
    pub fn empty(alloc: Global) -> Clue
        ensures { result ≡ [] }
    {
        Clue {
            numbers: SmallVec::new(alloc),
        }
    }

    /// Appends `number` to the clue. Fails with `BadNumber` if the clue has 128 numbers already, or
    /// `number` is 0 or greater than 256, and otherwise with `NoMemory` if an allocation fails;
    /// after a failure the clue is unchanged. The first allocation reserves the capacity for all
    /// numbers that a clue can have.
    pub fn push(&mut self, number: u16) -> Result<(), ClueFault>
        ensures ok { OnOk result (self.new ≡ self.old ++ number ∷ []) }
        ensures err { OnErr result (self.new ≡ self.old) }
        ensures clue { OnOk result (is_clue MAX_SIDE (self.old ++ number ∷ []) ≡ true) }
        ensures bad_number { IsErrOf result ClueFault.BadNumber
            ↔ (is_clue MAX_SIDE (self.old ++ number ∷ []) ≡ false) }
    {
        // A clue that is stored inline has at most 8 numbers, and whether it is inline is cheaper
        // to test than its length.
        let full = self.numbers.spilled() && self.numbers.len() == MAX_RUNS;
        if full || !is_run(number) {
            return Err(ClueFault::BadNumber);
        }
        if self.numbers.len() == self.numbers.capacity()
            && self.numbers.reserve(MAX_RUNS).is_err()
        {
            return Err(ClueFault::NoMemory);
        }
        self.numbers.push_reserved(number);
        Ok(())
    }

    /// Returns the numbers, in order.
    pub fn numbers(&self) -> &[u16]
        ensures numbers { result.now ≡ self.now }
        ensures clue { is_clue MAX_SIDE self.now ≡ true }
    {
        self.numbers.as_slice()
    }

    /// Returns a copy of the clue, or `NoMemory` if an allocation fails.
    pub fn copy(&self, alloc: Global) -> Result<Clue, NoMemory>
        ensures { IfOk result (λ clue. clue ≡ self.now) }
    {
        Ok(Clue {
            numbers: SmallVec::from_slice(alloc, self.numbers.as_slice())?,
        })
    }
}

/// Reports whether `number` can be the length of a run, which is from 1 to 256.
fn is_run(number: u16) -> bool
    ensures { result ≡ is_run MAX_SIDE number }
{
    (1..=MAX_SIDE).contains(&number)
}

/// Reports whether each of `numbers` can be the length of a run.
fn are_runs(numbers: &[u16]) -> bool
    ensures { result ≡ list_all (is_run MAX_SIDE) numbers.now }
{
    numbers.iter().all(|number| is_run(*number))
}

/// Reports whether `numbers` are a clue: at most 128 lengths of runs.
fn is_clue(numbers: &[u16]) -> bool
    ensures { result ≡ is_clue MAX_SIDE numbers.now }
{
    numbers.len() <= MAX_RUNS && are_runs(numbers)
}
