//! Deduces the lines of a puzzle.
ghost use Rattle.std.specs.Prelude.{◌≡◌, ◌++◌, ◌<◌, [], ◌∷◌, length, slice_index_or, true, IfOk, OnOk};
ghost use Rattle.std.specs.List.{AllByRecursion};
ghost use Rattle.grid_core.specs.Clues.{is_clue};
ghost use Rattle.grid_core.specs.PartialGrid.{IsSize};
ghost use Rattle.line_core.specs.Deduction.{deduced};
ghost use Rattle.line_core.specs.Lookahead.{AreInert};

use crate::deducing::deduction_cache::{CachedDeduction, DeductionCache};
use crate::deducing::lookahead_tables::LookaheadTables;
use grid_core::{Clue, MAX_SIDE, NoMemory};
use line_core::{BitLine, LineBits, Tables};
use std::alloc::Global;
use std::marker::Model;
use std::mem::swap;

/// The clues of a puzzle's lines, and all that is kept of deducing these: a cache, once it is
/// enabled, and lookahead tables. Each line is given by the index of its clue and by its cells.
pub struct Deducer<W: LineBits> {
    clues: Vec<Clue>,
    tables: Tables,
    cache: DeductionCache<W>,
    lookahead: LookaheadTables<W>,
}

/// Written by hand so that callers' proofs see one call: a derived drop is expanded at each exit of
/// each caller.
impl<W: LineBits> Drop for Deducer<W> {
    fn drop(self) {
        let Deducer {
            clues: _,
            tables: _,
            cache: _,
            lookahead: _,
        } = self;
    }
}

impl<W: LineBits> Model for Deducer<W> {
    ghost use Rattle.std.specs.Prelude.{ℕ, List};
    ghost use Rattle.solve_core.specs.steps.DeductionCache.{AreDeductionsOf};

    ghost Value = { List (List ℕ) };

    ghost view = { λ d. d.clues.items };

    ghost invariant = { λ d. AreDeductionsOf W.WIDTH d.clues.items d.cache d.lookahead };
}

/// Returns a copy of `answer`.
fn copy_answer<W: LineBits>(answer: &Option<BitLine<W>>) -> Option<BitLine<W>>
    ensures { result ≡ answer.now }
{
    match answer {
        None => None,
        Some(line) => Some(line.copy()),
    }
}

/// Returns how many clues a puzzle has at most whose lines the sets fit.
pub fn max_clues<W: LineBits>() -> usize {
    2 * usize::from(W::WIDTH)
}

/// Appends copies of `clues` to `list`. Fails with `NoMemory` if an allocation fails.
pub fn append_clues(alloc: Global, list: &mut Vec<Clue>, clues: &[Clue]) -> Result<(), NoMemory>
    ensures { OnOk result (list.new.items ≡ list.old.items ++ clues.now) }
{
    list.reserve(clues.len())?;
    for clue in clues {
        list.push_reserved(clue.copy(alloc)?);
    }
    Ok(())
}

impl<W: LineBits> Deducer<W> {
    /// Returns a deducer for the two lines of a puzzle of one blank cell. Fails with `NoMemory` if
    /// an allocation fails.
    pub fn new(alloc: Global) -> Result<Deducer<W>, NoMemory>
        ensures { IfOk result (λ deducer. deducer ≡ [] ∷ [] ∷ []) }
    {
        let mut clues = Vec::with_capacity(alloc, max_clues::<W>())?;
        clues.push(Clue::empty(alloc))?;
        clues.push(Clue::empty(alloc))?;
        Ok(Deducer {
            clues,
            tables: Tables::new(alloc, MAX_SIDE)?,
            cache: DeductionCache::new(alloc)?,
            lookahead: LookaheadTables::new(alloc)?,
        })
    }

    /// Reserves room for the deductions of a puzzle with `width` columns and `height` rows, and
    /// forgets all so far. Fails with `NoMemory` if an allocation fails.
    pub fn reserve(&mut self, alloc: Global, width: u16, height: u16) -> Result<(), NoMemory>
        requires { IsSize width height }
        ensures { self.new ≡ self.old }
    {
        self.cache.reset(usize::from(width) * usize::from(height))?;
        self.lookahead.reset(alloc, width, height)
    }

    /// Swaps the clues with `clues`, those of another puzzle, for which room has been reserved, and
    /// forgets all deductions. Allocates nothing.
    pub fn swap_clues(&mut self, clues: &mut Vec<Clue>)
        requires { AllByRecursion (λ clue. is_clue W.WIDTH clue ≡ true) clues.old.items }
        ensures { self.new ≡ clues.old.items }
    {
        self.cache.clear();
        self.lookahead.clear();
        swap(&mut self.clues, clues);
    }

    /// Enables the cache, which pays once trials deduce lines again and again. Allocates nothing.
    pub fn enable_cache(&mut self)
        ensures { self.new ≡ self.old }
    {
        self.cache.enable();
    }

    /// Clears all lookahead tables.
    pub fn clear_tables(&mut self)
        ensures { self.new ≡ self.old }
    {
        self.lookahead.clear();
    }

    /// Returns the unknown cells of `line`, which has clue `k`, that can be filled, or, unless
    /// `filled`, made blank, without anything else being deduced on it, by its lookahead table; no
    /// cells if there can't be one.
    pub fn inert_cells(&mut self, k: u16, line: &BitLine<W>, filled: bool) -> W
        requires { k < length self.old }
        ensures inert { AreInert (slice_index_or self.old k []) line.now filled (W.bits result) }
        ensures clues { self.new ≡ self.old }
    {
        let clue = self.clues[usize::from(k)].numbers();
        self.lookahead.ensure(&mut self.tables, k, clue, line);
        self.lookahead.inert_cells(k, line, filled)
    }

    /// Returns the deduced line for the cells of `line` and clue `k`: what all placings share, or
    /// `None` if there is no placing. Looks in the lookahead tables first, then in the cache.
    // Inlined, since a call would copy its result.
    #[inline(always)]
    pub fn deduce(&mut self, k: u16, line: &BitLine<W>) -> Option<BitLine<W>>
        requires { k < length self.old }
        ensures answer { result ≡ deduced line.now (slice_index_or self.old k []) }
        ensures clues { self.new ≡ self.old }
    {
        if let Some(support) = self.lookahead.support_after(k, line) {
            return support.deduced_from(line.len());
        }
        if !self.cache.is_enabled() {
            return W::deduce(&mut self.tables, line, self.clues[usize::from(k)].numbers());
        }
        let slot = self.cache.slot_of(k, line);
        if let Some(deduction) = self.cache.get(slot, k, line) {
            return copy_answer(&deduction.answer);
        }
        let answer = W::deduce(&mut self.tables, line, self.clues[usize::from(k)].numbers());
        self.cache.insert(
            slot,
            CachedDeduction {
                clue: k,
                line: line.copy(),
                answer: copy_answer(&answer),
            },
        );
        answer
    }
}
