//! Running a task on a list in chunks, each in a thread of its own.

ghost use Rattle.std.specs.Prelude.{◌≡◌, ◌≤◌, ◌<◌, ◌+◌, ◌-◌, ◌*◌, ◌++◌, ◌^◌, ℕ, List, IfOk, length};
ghost use Rattle.std.specs.Thread.{IsSync, IsSend};

use grid_core::NoMemory;
use std::thread::{Threads, join};

/// The smallest number of items for which a thread of its own is worth its cost.
const MIN_CHUNK: usize = 32;

/// Returns in how many chunks a task on `items` items is to run: one for each of `lanes` lanes, or
/// fewer, so that each has at least 32 items. With 0 or 1 the list is not divided.
pub fn chunk_count(items: usize, lanes: u16) -> usize
    ensures lanes { result ≤ lanes }
    ensures size { result * 32 ≤ items }
{
    usize::from(lanes).min(items / MIN_CHUNK)
}

/// A task on a list that can run in chunks.
pub trait ChunkTask<T> {
    /// The result for a chunk.
    type Output;

    /// What holds of the result for a chunk of items whose first has a given index in the whole
    /// list.
    ghost gives: { Self → ℕ → List T → Self.Output → Type 0 };

    /// Runs the task on a chunk, whose first item has the index `first` in the whole list. Fails
    /// with `NoMemory` if an allocation does.
    fn run(&self, first: usize, items: &[T]) -> Result<Self::Output, NoMemory>
        requires { first + length items.now < 2 ^ 31 }
        ensures { IfOk result (gives self.now first items.now) };

    /// Returns the result for two adjacent chunks from the results for the first, `front`, and for
    /// the one after it, `behind`. Fails with `NoMemory` if an allocation does.
    fn merge(&self, front: Self::Output, behind: Self::Output) -> Result<Self::Output, NoMemory>
        ensures { (first : ℕ) (xs ys : List T)
            → gives self.now first xs front → gives self.now (first + length xs) ys behind
            → IfOk result (gives self.now first (xs ++ ys)) };
}

/// Runs `work` on `items` in `chunks` chunks, each in a thread of its own, while this thread waits;
/// or, if `chunks` is 0 or 1, as one chunk in this thread.
pub fn run_chunked<R: Threads + Sync, T: Sync, W: ChunkTask<T, Output = X> + Sync, X: Send + Drop>(
    rt: &R,
    task: &W,
    items: &[T],
    chunks: usize,
) -> Result<X, NoMemory>
    requires { length items.now < 2 ^ 31 }
    ensures { IfOk result (W.gives task.now 0 items.now) }
{
    if chunks < 2 {
        return task.run(0, items);
    }
    let (done, ()) = join(
        rt,
        || -> Result<X, NoMemory>
            requires { length items.now < 2 ^ 31 }
            ensures { IfOk result (W.gives task.entry.now 0 items.entry.now) }
        { split_and_join(rt, task, 0, items, chunks) },
        || (),
    );
    done
}

/// Runs `work` on `items`, whose first has the index `first` in the whole list, in `chunks` chunks:
/// the first half of the chunks in a new thread, the others in this one.
#[cycle(split_and_join)]
fn split_and_join<R: Threads + Sync, T: Sync, W: ChunkTask<T, Output = X> + Sync, X: Send + Drop>(
    rt: &R,
    task: &W,
    first: usize,
    items: &[T],
    chunks: usize,
) -> Result<X, NoMemory>
    requires { first + length items.now < 2 ^ 31 }
    ensures { IfOk result (W.gives task.now first items.now) }
{
    if chunks < 2 {
        return task.run(first, items);
    }
    let fewer = chunks / 2;
    let others = chunks - fewer;
    let (left, right) = items.split_at(chunk_start(items.len(), fewer, chunks));
    let next = first + left.len();
    // If no thread can be started, `join` runs the left half in this one: that is no fault.
    let (front, behind) = join(
        rt,
        || -> Result<X, NoMemory>
            requires { IsSync R.row × IsSync T.row × IsSync W.row × IsSend X.row
                × (first + length left.now < 2 ^ 31) }
            ensures { IfOk result (W.gives task.entry.now first left.entry.now) }
        { split_and_join(rt, task, first, left, fewer) },
        || -> Result<X, NoMemory>
            requires { IsSync R.row × IsSync T.row × IsSync W.row × IsSend X.row
                × (next + length right.now < 2 ^ 31) }
            ensures { IfOk result (W.gives task.entry.now next right.entry.now) }
        { split_and_join(rt, task, next, right, others) },
    );
    task.merge(front?, behind?)
}

/// Returns how many of `count` items are in the first `some` of `chunks` chunks. What the
/// division leaves over goes to the other chunks.
fn chunk_start(count: usize, some: usize, chunks: usize) -> usize
    requires { (some ≤ chunks) × (0 < chunks) }
    ensures within { result ≤ count }
    // If there are `least` items for each chunk, each has at least as many.
    ensures front { (least : ℕ) → chunks * least ≤ count → some * least ≤ result }
    ensures behind { (least : ℕ) → chunks * least ≤ count
        → (chunks - some) * least ≤ count - result }
{
    count / chunks * some
}
