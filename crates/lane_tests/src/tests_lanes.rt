//! Jobs, calls and lanes for the scripts of the tests of `lane_core`, and tests of single calls.

ghost use Rattle.std.specs.Prelude.{◌≡◌, ◌≤◌, IfOk};
ghost use Rattle.lane_core.specs.Ends.{AreOneLane};

use grid_core::{Clue, NoMemory, Puzzle, Texts};
use lane_core::*;
use solve_core::{Findings, Grade, Pick, Verdict};
use std::alloc::Global;
use std::collections::VecDeque;
use std::process::Abort;
use std::test::Fail;

/// Returns `count` clues, each with the numbers `numbers`.
fn clues(alloc: Global, count: u16, numbers: &[u16]) -> Result<Vec<Clue>, Fail> {
    let mut clues = Vec::new(alloc);
    for _ in 0..count {
        clues.push(Clue::from_numbers(alloc, numbers)?)?;
    }
    Ok(clues)
}

/// Returns the puzzle with the clue `row` for each row and `column` for each column.
pub(crate) fn puzzle_with(
    alloc: Global,
    width: u16,
    height: u16,
    row: &[u16],
    column: &[u16],
) -> Result<Puzzle, Fail> {
    let rows = clues(alloc, height, row)?;
    let columns = clues(alloc, width, column)?;
    Ok(Puzzle::new(width, height, rows, columns, Texts::none(), None)?)
}

/// Returns the width of the puzzle of the job `number`. Neighbouring jobs have different ones, by
/// which a test notices an answer with another job's puzzle.
fn width_of(number: u32) -> u16 {
    (number % 9) as u16 + 1
}

/// Returns the job `number`: one row of 1 to 9 filled cells, and a limit of 1,000 guesses.
pub(crate) fn job(alloc: Global, number: u32) -> Result<Job, Fail> {
    let width = width_of(number);
    let puzzle = puzzle_with(alloc, width, 1, &[width], &[1])?;
    Ok(Job::new(number, puzzle, 1000, Pick::First))
}

/// Appends a job.
fn push_job(jobs: &mut VecDeque<Job, Global>, job: Job) -> Result<(), Fail> {
    jobs.push_back(job).ok().ok_or("memory")?;
    Ok(())
}

/// Returns `count` jobs with the numbers from `first` on, in order.
pub(crate) fn jobs(alloc: Global, first: u32, count: u32) -> Result<VecDeque<Job, Global>, Fail> {
    let mut jobs = VecDeque::new(alloc);
    for index in 0..count {
        push_job(&mut jobs, job(alloc, first.wrapping_add(index))?)?;
    }
    Ok(jobs)
}

/// A call on a lane.
#[derive(Clone, Copy)]
pub(crate) enum Call {
    /// Sends the job of this number.
    Send(u32),
    /// Sends the finish.
    Finish,
    /// Takes an answer.
    Take,
    /// Has the worker take one step, or at a batch lane all the steps that it can.
    Work,
}

/// The result of a call. Jobs that are returned, and answers, stand as their numbers.
#[derive(Clone, Copy, Debug, PartialEq, Eq)]
pub(crate) enum Reply {
    Accepted,
    Full,
    Finished,
    FullReturning(u32),
    FinishedReturning(u32),
    Answered(u32),
    /// An answer without a report, since an allocation failed.
    Refused(u32),
    /// An answer with the puzzle or the report of another job.
    Mistaken(u32),
    Nothing,
    Stepped(Step),
    Worked,
}

/// Returns the jobs that a script sends, in order.
pub(crate) fn jobs_for(
    alloc: Global,
    script: &[(Call, Reply)],
) -> Result<VecDeque<Job, Global>, Fail> {
    let mut jobs = VecDeque::new(alloc);
    for (call, _) in script {
        if let Call::Send(number) = call {
            push_job(&mut jobs, job(alloc, *number)?)?;
        }
    }
    Ok(jobs)
}

/// Returns a result of `send` as a reply.
fn sent(reply: Result<(), SendFault>) -> Reply {
    match reply {
        Ok(()) => Reply::Accepted,
        Err(SendFault::Full(job)) => Reply::FullReturning(job.number),
        Err(SendFault::Finished(job)) => Reply::FinishedReturning(job.number),
    }
}

/// Returns a result of `finish` as a reply.
fn finished(reply: Result<(), FinishFault>) -> Reply {
    match reply {
        Ok(()) => Reply::Accepted,
        Err(FinishFault::Full) => Reply::Full,
        Err(FinishFault::Finished) => Reply::Finished,
    }
}

/// Returns an answer as a reply: `Refused` if it has no report, and `Mistaken` if its puzzle or its
/// report is that of another job.
pub(crate) fn result_of(answer: &Answer) -> Reply {
    let number = answer.number();
    let width = width_of(number);
    if answer.puzzle().width() != width {
        return Reply::Mistaken(number);
    }
    match answer.outcome() {
        Err(NoMemory) => Reply::Refused(number),
        Ok(found) => match &found.verdict {
            Verdict::One(grid) if grid.width() == width => Reply::Answered(number),
            _ => Reply::Mistaken(number),
        },
    }
}

/// Returns a result of `take` as a reply.
fn taken(reply: Option<Answer>) -> Reply {
    match reply {
        Some(answer) => result_of(&answer),
        None => Reply::Nothing,
    }
}

/// The result of a deal: whether a message or an answer was moved, how many jobs then wait, and how
/// many answers were received.
type Dealt = (bool, usize, usize);

/// A deal or a call, with its expected result.
#[derive(Clone, Copy)]
pub(crate) enum Turn {
    Deal(Dealt),
    Call(Call, Reply),
}

/// A lane on which a script can be run.
pub(crate) trait Called: Drop {
    /// Makes a call. `Call::Send` sends the first of `jobs`.
    fn call(&mut self, alloc: Global, call: Call, jobs: &mut VecDeque<Job, Global>) -> Reply;

    /// Takes one turn of `deal`: sends jobs of `waiting`, and appends answers to `got`.
    fn dealt(&mut self, waiting: &mut VecDeque<Job, Global>, got: &mut Vec<Answer>) -> Dealt;

    /// Settles the lane, or returns it with the fault that keeps it from being settled.
    fn end(self) -> Result<(), (SettleFault, Self)>;
}

/// Takes turns at a lane, and asserts that each has its expected result.
pub(crate) fn take_turns<L: Called>(
    rt: &(impl Abort + AllocGlobal),
    lane: &mut L,
    waiting: &mut VecDeque<Job, Global>,
    got: &mut Vec<Answer>,
    turns: &[Turn],
) {
    for (turn, number) in turns.iter().zip(1u32..) {
        let is_expected = match turn {
            Turn::Deal(dealt) => lane.dealt(waiting, got) == *dealt,
            Turn::Call(call, reply) => lane.call(rt.alloc(), *call, waiting) == *reply,
        };
        assert!(rt; is_expected, "turn {number}");
    }
}

/// Takes turns at a lane, with `count` jobs from the number `first` on and a list with a capacity
/// of `capacity` answers. Returns whether the lane can be settled afterwards.
pub(crate) fn deal_jobs<L: Called>(
    rt: &(impl Abort + AllocGlobal),
    lane: Option<L>,
    first: u32,
    count: u32,
    capacity: usize,
    turns: &[Turn],
) -> Result<bool, Fail> {
    let mut lane = lane.ok_or("memory")?;
    let mut waiting = jobs(rt.alloc(), first, count)?;
    let mut got = Vec::with_capacity(rt.alloc(), capacity)?;
    take_turns(rt, &mut lane, &mut waiting, &mut got, turns);
    Ok(lane.end().is_ok())
}

/// The two ends of one lane. That they are of one lane, which `settle` requires, is an invariant.
#[derive(Drop)]
pub(crate) struct Both {
    front: LaneFront,
    back: LaneBack,
    ghost one_lane: { AreOneLane front back },
}

impl Both {
    /// Opens a lane. `None` if an allocation fails.
    pub(crate) fn open(alloc: Global, capacity: usize) -> Option<Both>
        requires least { 1 ≤ capacity }
        requires most { capacity ≤ MAX_RING }
    {
        let (front, back) = open_lane(alloc, capacity).ok()?;
        Some(Both { front, back })
    }
}

impl Called for Both {
    fn call(&mut self, alloc: Global, call: Call, jobs: &mut VecDeque<Job, Global>) -> Reply {
        match call {
            Call::Send(_) => match jobs.pop_front() {
                Some(job) => sent(self.front.send(job)),
                None => Reply::Nothing,
            },
            Call::Finish => finished(self.front.finish()),
            Call::Take => taken(self.front.take()),
            Call::Work => Reply::Stepped(self.back.step(alloc, &OpenGate)),
        }
    }

    fn dealt(&mut self, waiting: &mut VecDeque<Job, Global>, got: &mut Vec<Answer>) -> Dealt {
        dealt(&mut self.front, waiting, got)
    }

    fn end(self) -> Result<(), (SettleFault, Both)> {
        let Both { front, back } = self;
        match settle(front, back) {
            Ok(()) => Ok(()),
            Err((fault, front, back)) => Err((fault, Both { front, back })),
        }
    }
}

/// A batch lane.
#[derive(Drop)]
pub(crate) struct Batch {
    pub(crate) lane: BatchLane,
}

impl Batch {
    /// Opens a batch lane. `None` if an allocation fails.
    pub(crate) fn open(alloc: Global, capacity: usize) -> Option<Batch>
        requires least { 1 ≤ capacity }
        requires most { capacity ≤ MAX_BATCH }
    {
        let lane = BatchLane::new(alloc, capacity).ok()?;
        Some(Batch { lane })
    }
}

impl Called for Batch {
    fn call(&mut self, alloc: Global, call: Call, jobs: &mut VecDeque<Job, Global>) -> Reply {
        match call {
            Call::Send(_) => match jobs.pop_front() {
                Some(job) => sent(self.lane.send(job)),
                None => Reply::Nothing,
            },
            Call::Finish => finished(self.lane.finish()),
            Call::Take => taken(self.lane.take()),
            Call::Work => {
                self.lane.work(alloc, &OpenGate);
                Reply::Worked
            }
        }
    }

    fn dealt(&mut self, waiting: &mut VecDeque<Job, Global>, got: &mut Vec<Answer>) -> Dealt {
        dealt(&mut self.lane, waiting, got)
    }

    fn end(self) -> Result<(), (SettleFault, Batch)> {
        match self.lane.close() {
            Ok(()) => Ok(()),
            Err((fault, lane)) => Err((fault, Batch { lane })),
        }
    }
}

/// Takes one turn of `deal` and returns its result.
fn dealt<L: Lane>(lane: &mut L, waiting: &mut VecDeque<Job, Global>, got: &mut Vec<Answer>) -> Dealt
    ensures { L.same_lane lane.old lane.new }
{
    let moved = deal(lane, waiting, got);
    (moved, waiting.len(), got.len())
}

/// Two jobs, and a capacity of one answer: the deals leave the second answer in the lane.
const LITTLE_ROOM: [Turn; 5] = [
    Turn::Deal((true, 0, 0)),
    Turn::Call(Call::Work, Reply::Worked),
    Turn::Deal((true, 0, 1)),
    Turn::Deal((false, 0, 1)),
    Turn::Call(Call::Take, Reply::Answered(2)),
];

#[test]
fn dealing_with_little_room(rt: HostRuntime) -> Result<(), Fail> {
    let lane = Batch::open(rt.alloc(), 2);
    deal_jobs(&rt, lane, 1, 2, 1, &LITTLE_ROOM)?;
    Ok(())
}

/// Two jobs at a lane of capacity 1: the second is sent once the worker has taken the first.
const AT_A_FRONT: [Turn; 7] = [
    Turn::Deal((true, 1, 0)),
    Turn::Deal((false, 1, 0)),
    Turn::Call(Call::Work, Reply::Stepped(Step::Graded)),
    Turn::Deal((true, 0, 1)),
    Turn::Call(Call::Work, Reply::Stepped(Step::Graded)),
    Turn::Deal((true, 0, 2)),
    Turn::Call(Call::Work, Reply::Stepped(Step::Done)),
];

#[test]
fn dealing_at_a_front(rt: HostRuntime) -> Result<(), Fail> {
    let lane = Both::open(rt.alloc(), 1);
    assert!(rt; deal_jobs(&rt, lane, 1, 2, 2, &AT_A_FRONT)?);
    Ok(())
}

/// Reports whether these are the findings on a puzzle of one cell that lines make known.
fn is_one_cell(found: &Findings) -> bool {
    let is_known = match &found.verdict {
        Verdict::One(grid) => grid.width() == 1 && grid.height() == 1 && grid.known() == 1,
        _ => false,
    };
    is_known
        && found.grade == Grade::Lines
        && found.line_known == 1
        && found.trial_known == 1
        && found.spent == 0
}

#[test]
fn grades_a_job(rt: HostRuntime) -> Result<(), Fail> {
    let answer = grade(rt.alloc(), job(rt.alloc(), 9)?);
    assert!(rt; answer.number() == 9 && answer.guesses() == 1000);
    assert!(rt; answer.pick() == Pick::First);
    let found = answer.outcome().ok().ok_or("no report")?;
    assert!(rt; is_one_cell(found));
    Ok(())
}

#[test]
fn faults_in_sentences(rt: HostRuntime) -> Result<(), Fail> {
    let alloc = rt.alloc();
    let sentences = format!(in alloc;
        "{}, {}, {}, {}, {}, {}",
        SendFault::Finished(job(alloc, 1)?),
        SendFault::Full(job(alloc, 1)?),
        FinishFault::Finished,
        FinishFault::Full,
        SettleFault::Unfinished,
        SettleFault::NotDrained
    )?;
    let wanted = "the finish was sent, the lane is full, the finish was sent, the lane is full, \
        the finish was not taken, an answer was not received";
    assert!(rt; sentences.as_str() == wanted);
    Ok(())
}

#[test]
fn front_without_its_back(rt: HostRuntime) -> Result<(), Fail> {
    // The back is dropped at once.
    let mut front = Both::open(rt.alloc(), 1).ok_or("memory")?.front;
    for (number, wanted) in [(1u32, Reply::Accepted), (2, Reply::FullReturning(2))] {
        let job = job(rt.alloc(), number)?;
        assert!(rt; sent(front.send(job)) == wanted, "job {number}");
    }
    assert!(rt; front.take().is_none());
    Ok(())
}

/// Returns the back of a lane of capacity 1, whose front was dropped after it had sent a job.
fn back_alone(alloc: Global) -> Result<LaneBack, Fail> {
    let mut lane = Both::open(alloc, 1).ok_or("memory")?;
    if lane.call(alloc, Call::Send(1), &mut jobs(alloc, 1, 1)?) != Reply::Accepted {
        return Err("not accepted".into());
    }
    Ok(lane.back)
}

#[test]
fn back_without_its_front(rt: HostRuntime) -> Result<(), Fail> {
    let mut back = back_alone(rt.alloc())?;
    for (step, wanted) in [Step::Graded, Step::Idle, Step::Idle].iter().enumerate() {
        assert!(rt; back.step(rt.alloc(), &OpenGate) == *wanted, "step {step}");
    }
    Ok(())
}
