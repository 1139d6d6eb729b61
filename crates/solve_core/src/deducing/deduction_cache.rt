//! A cache of deduced lines.
ghost use Rattle.std.specs.Prelude.{[], ◌≡◌, ◌≤◌, vec_capacity, IsTrue, IfOk, IfSome, All};
ghost use Rattle.std.specs.List.{Contains};
ghost use Rattle.solve_core.specs.steps.DeductionCache.{IsInsertedInto};

use grid_core::NoMemory;
use line_core::{BitLine, LineBits};
use std::alloc::Global;
use std::marker::Model;

/// How many deductions are cached at most, in sets of 64 indices; fewer in wider ones.
pub const MAX_CACHED: usize = 16384;

/// How many deductions are cached for each cell of a puzzle, up to the most for the set width.
const CACHED_PER_CELL: usize = 8;

/// The content of an empty slot, which is no deduction's index.
const EMPTY_SLOT: u16 = u16::MAX;

/// The cells of a line, the index of its clue, and its deduced line; `None` if it is dead.
#[derive(Drop)]
pub struct CachedDeduction<W: LineBits> {
    pub clue: u16,
    pub line: BitLine<W>,
    pub answer: Option<BitLine<W>>,
}

impl<W: LineBits> Model for CachedDeduction<W> {
    ghost use Rattle.solve_core.specs.steps.DeductionCache.{CachedLine};

    ghost Value = { CachedLine };

    ghost view = { λ d. record { clue = d.clue; line = d.line; answer = d.answer } };
}

impl<W: LineBits> CachedDeduction<W> {
    /// Reports whether this is the deduction of a line with the cells of `line` and clue `k`.
    fn is_of(&self, k: u16, line: &BitLine<W>) -> bool
        ensures { IsTrue result → (self.now.clue ≡ k) × (self.now.line ≡ line.now) }
    {
        self.clue == k && self.line.is_same(line)
    }
}

/// Returns how many deductions are cached at most in sets of width `W::WIDTH`: the wider the sets,
/// the fewer, so that the cache takes about the same memory.
fn max_cached<W: LineBits>() -> usize
    ensures { (1 ≤ result) × (result ≤ MAX_CACHED) }
{
    (MAX_CACHED * 64 / usize::from(W::WIDTH)).min(MAX_CACHED)
}

/// Returns how many deductions are cached for a puzzle of `cells` cells: a power of two.
fn capacity_for<W: LineBits>(cells: usize) -> usize
    requires { cells ≤ 65536 }
    ensures { (1 ≤ result) × (result ≤ MAX_CACHED) }
{
    (cells * CACHED_PER_CELL)
        .next_power_of_two()
        .min(max_cached::<W>())
}

/// Replaces the deduction with number `index` by `deduction`. If there is none, appends `deduction`
/// and writes its number to `index`, unless there are `capacity` deductions already.
fn insert_entry<W: LineBits>(
    entries: &mut Vec<CachedDeduction<W>>,
    index: &mut u16,
    capacity: usize,
    deduction: CachedDeduction<W>,
)
    requires fits { capacity ≤ vec_capacity entries.old }
    requires few { capacity ≤ MAX_CACHED }
    ensures entries { All (IsInsertedInto entries.old.items deduction) entries.new.items }
    ensures fits { vec_capacity entries.new ≡ vec_capacity entries.old }
{
    let count = entries.len();
    let place = usize::from(*index);
    if place < count {
        entries[place] = deduction;
    } else if count < capacity {
        *index = count as u16;
        entries.push_reserved(deduction);
    }
}

/// Deductions that are kept once the cache is enabled. A line with its clue's index hashes to one
/// slot, and a new deduction replaces the one in its slot.
pub struct DeductionCache<W: LineBits> {
    capacity: usize,
    slots: Vec<u16>,
    entries: Vec<CachedDeduction<W>>,
}

/// Written by hand so that callers' proofs see one call: a derived drop is expanded at each exit of
/// each caller.
impl<W: LineBits> Drop for DeductionCache<W> {
    fn drop(self) {
        let DeductionCache {
            capacity: _,
            slots: _,
            entries: _,
        } = self;
    }
}

impl<W: LineBits> Model for DeductionCache<W> {
    ghost use Rattle.std.specs.Prelude.{◌≤◌, List, vec_capacity};
    ghost use Rattle.solve_core.specs.steps.DeductionCache.{CachedLine};
    ghost use Rattle.solve_core.specs.declared.deducing.deduction_cache.TheConstants.{MAX_CACHED};

    ghost Value = { List CachedLine };

    ghost view = { λ d. d.entries.items };

    ghost invariant = { λ d.
        (1 ≤ d.capacity) × (d.capacity ≤ MAX_CACHED) × (d.capacity ≤ vec_capacity d.entries) };
}

impl<W: LineBits> DeductionCache<W> {
    /// Returns a cache for one deduction. Fails with `NoMemory` if an allocation fails.
    pub fn new(alloc: Global) -> Result<DeductionCache<W>, NoMemory>
        ensures { IfOk result (λ cache. cache ≡ []) }
    {
        Ok(DeductionCache {
            capacity: 1,
            slots: Vec::with_capacity(alloc, 1)?,
            entries: Vec::with_capacity(alloc, 1)?,
        })
    }

    /// Clears the cache, and reserves room in proportion to the `cells` of a puzzle. Nothing is
    /// cached before `enable` is called. Fails with `NoMemory` if an allocation fails.
    pub fn reset(&mut self, cells: usize) -> Result<(), NoMemory>
        requires { cells ≤ 65536 }
        ensures { self.new ≡ [] }
    {
        self.clear();
        let capacity = capacity_for::<W>(cells);
        self.slots.reserve(capacity)?;
        self.entries.reserve(capacity)?;
        self.capacity = capacity;
        Ok(())
    }

    /// Removes all deductions. Nothing is cached before `enable` is called.
    pub fn clear(&mut self)
        ensures { self.new ≡ [] }
    {
        self.slots.clear();
        self.entries.clear();
    }

    /// Enables the cache, and has no effect if it is enabled. Allocates nothing.
    pub fn enable(&mut self)
        ensures { self.new ≡ self.old }
    {
        // This can't fail, since the capacity suffices.
        let _ = self.slots.resize(self.capacity, EMPTY_SLOT);
    }

    /// Reports whether the cache is enabled.
    pub fn is_enabled(&self) -> bool {
        !self.slots.is_empty()
    }

    /// Returns the slot of a line with clue `k`.
    pub fn slot_of(&self, k: u16, line: &BitLine<W>) -> usize {
        let mixed = line
            .hash()
            .wrapping_add(u64::from(k).wrapping_mul(0x8cb9_2ba7_2f3d_8dd7));
        // The upper 14 bits are mixed best, and suffice for `MAX_CACHED` slots.
        (mixed >> 50) as usize & (self.capacity - 1)
    }

    /// Returns the deduction in `slot` if it is of a line with the cells of `line` and clue `k`.
    pub fn get(&self, slot: usize, k: u16, line: &BitLine<W>) -> Option<&CachedDeduction<W>>
        ensures { IfSome result (λ d.
            Contains self.now d.now × (d.now.clue ≡ k) × (d.now.line ≡ line.now)) }
    {
        let index = self.slots.get(slot)?;
        let deduction = self.entries.get(usize::from(*index))?;
        if deduction.is_of(k, line) {
            Some(deduction)
        } else {
            None
        }
    }

    /// Puts `deduction` into `slot`, in place of the one that was there. Has no effect if the cache
    /// isn't enabled.
    pub fn insert(&mut self, slot: usize, deduction: CachedDeduction<W>)
        ensures { All (IsInsertedInto self.old deduction) self.new }
    {
        if let Some(index) = self.slots.get_mut(slot) {
            insert_entry(&mut self.entries, index, self.capacity, deduction);
        }
    }
}
