//! The end of a world: its last marks, and what it hands back.

ghost use Rattle.std.specs.Prelude.{◌≡◌, [], ◌+◌, ◌≤◌, ◌++◌, length, map, IfOk, vec_len, vec_capacity};
ghost use Rattle.rcu_numbers.specs.declared.shape.TheConstants.{MOST_PROCESSORS};
ghost use Rattle.rcu_world_law.specs.declared.marks.Mark.TheVariants.{Back};
ghost use Rattle.rcu_world_law.specs.Invariant.{reports};
ghost use Rattle.rcu_world_law.specs.Closing.{closing, shut_marks};
ghost use Rattle.rcu_world_processor.specs.Leaving.{left_keys};
ghost use Rattle.rcu_world.specs.Leaving.{AreReported, AreCounted, HaveRoom, IsRoomFor, backs, most_marks};
ghost use Rattle.rcu_world_processor.specs.Views.{records_of};
ghost use Rattle.rcu_world.specs.Views.{all_seen, state};
ghost use Rattle.rcu_world.specs.Worlds.{IsFit};

use crate::cores::Core;
use rcu_jobs::{Closed, Job, Record};
use rcu_world_law::marks::Mark;
use rcu_world_processor::WorldProcessor;
use std::alloc::{AllocError, Global};

/// The room that a close needs, found before anything moves.
#[derive(Drop)]
pub(crate) struct Reserved<J, R> {
    /// The history, with room for the last marks.
    marks: Vec<Mark>,
    /// For each processor an empty list with room for the jobs that are left of it.
    jobs: Vec<Vec<J>>,
    ran: Vec<Vec<Record<R>>>,
    back: Vec<Vec<J>>,
    reports: Vec<u64>,
}

/// Finds an empty list for each processor, with room for what is left of it.
fn find_rooms<J: Job>(
    alloc: Global,
    processors: &Vec<WorldProcessor<J, J::Receipt>>,
) -> Result<Vec<Vec<J>>, AllocError>
    requires { AreCounted J.key_of processors.now.items }
    ensures { IfOk result (λ rooms. HaveRoom J.key_of processors.now.items rooms.items) }
{
    let mut rooms = Vec::new(alloc);
    for p in processors {
        rooms.push(Vec::with_capacity(alloc, p.left() as usize)?)?;
    }
    Ok(rooms)
}

/// How many marks a close may add.
fn count_marks<J: Job>(processors: &Vec<WorldProcessor<J, J::Receipt>>) -> usize
    requires counted { AreCounted J.key_of processors.now.items }
    requires few { vec_len processors.now ≤ MOST_PROCESSORS }
    ensures { result ≡ most_marks (all_seen J.key_of processors.now.items) }
{
    let mut count = 0;
    for p in processors {
        count += 1 + p.left() as usize;
    }
    count
}

/// Adds a `Shut` for each processor that has none. There is room.
fn add_shuts<J: Job>(processors: &Vec<WorldProcessor<J, J::Receipt>>, marks: &mut Vec<Mark>)
    requires room { vec_len marks.old + vec_len processors.now ≤ vec_capacity marks.old }
    ensures marks { marks.new.items
        ≡ marks.old.items ++ shut_marks 0 (all_seen J.key_of processors.now.items) }
    ensures len { vec_len marks.new ≤ vec_len marks.old + vec_len processors.now }
    ensures capacity { vec_capacity marks.old ≤ vec_capacity marks.new }
{
    for cpu in 0..processors.len() {
        if processors[cpu].is_open() {
            marks.push_reserved(Mark::Shut(cpu as u64));
        }
    }
}

/// Takes the processors apart: what ran, and the jobs that are left.
fn take_apart<J: Job>(
    mut processors: Vec<WorldProcessor<J, J::Receipt>>,
    mut rooms: Vec<Vec<J>>,
    ran: &mut Vec<Vec<Record<J::Receipt>>>,
    back: &mut Vec<Vec<J>>,
)
    requires rooms { HaveRoom J.key_of processors.items rooms.items }
    requires ran_room { vec_len ran.old + vec_len processors ≤ vec_capacity ran.old }
    requires back_room { vec_len back.old + vec_len processors ≤ vec_capacity back.old }
    ensures ran { ran.new.items ≡ ran.old.items ++ map records_of processors.items }
    ensures back { map (λ v. map J.key_of v.items) back.new.items
        ≡ map (λ v. map J.key_of v.items) back.old.items
        ++ map left_keys (all_seen J.key_of processors.items) }
{
    while !processors.is_empty() {
        let mut processor = processors.remove(0);
        let mut jobs = rooms.remove(0);
        processor.drain(&mut jobs);
        ran.push_reserved(processor.into_records());
        back.push_reserved(jobs);
    }
}

/// Adds a `Back` for each of a processor's jobs. There is room.
fn add_back<J: Job>(cpu: u64, jobs: &Vec<J>, marks: &mut Vec<Mark>)
    requires room { vec_len marks.old + vec_len jobs.now ≤ vec_capacity marks.old }
    ensures marks { marks.new.items
        ≡ marks.old.items ++ map (λ key. Back cpu key) (map J.key_of jobs.now.items) }
    ensures len { vec_len marks.new ≡ vec_len marks.old + vec_len jobs.now }
    ensures capacity { vec_capacity marks.old ≤ vec_capacity marks.new }
{
    for job in jobs {
        marks.push_reserved(Mark::Back(cpu, job.key()));
    }
}

/// Adds a `Back` for each job that is handed back, by processor and in order. There is room.
fn add_backs<J: Job>(back: &Vec<Vec<J>>, marks: &mut Vec<Mark>)
    requires room { vec_len marks.old
        + length (backs 0 (map (λ v. map J.key_of v.items) back.now.items))
        ≤ vec_capacity marks.old }
    ensures { marks.new.items
        ≡ marks.old.items ++ backs 0 (map (λ v. map J.key_of v.items) back.now.items) }
{
    for cpu in 0..back.len() {
        add_back(cpu as u64, &back[cpu], marks);
    }
}

/// How often a processor reported.
fn count_reports(marks: &Vec<Mark>, cpu: u64) -> u64
    ensures { result ≡ reports cpu marks.now.items }
{
    let mut count = 0;
    for mark in marks {
        if *mark == Mark::Reported(cpu) {
            count += 1;
        }
    }
    count
}

/// How often each of the first `n` processors reported. There is room.
fn add_reports(marks: &Vec<Mark>, n: usize, counts: &mut Vec<u64>)
    requires empty { counts.old.items ≡ [] }
    requires room { n ≤ vec_capacity counts.old }
    ensures { AreReported n marks.now.items counts.new.items }
{
    for cpu in 0..n {
        counts.push_reserved(count_reports(marks, cpu as u64));
    }
}

impl<J: Job> Core<J, J::Receipt> {
    /// Finds the room that a close needs.
    pub(crate) fn find_room(&self) -> Result<Reserved<J, J::Receipt>, AllocError>
        requires { IsFit (state J.key_of self.now) }
        ensures { IfOk result (IsRoomFor J.key_of self.now) }
    {
        let n = self.processors.len();
        let mut marks = Vec::from_slice(self.alloc, self.history.as_slice())?;
        marks.reserve(count_marks(&self.processors))?;
        Ok(Reserved {
            marks,
            jobs: find_rooms(self.alloc, &self.processors)?,
            ran: Vec::with_capacity(self.alloc, n)?,
            back: Vec::with_capacity(self.alloc, n)?,
            reports: Vec::with_capacity(self.alloc, n)?,
        })
    }

    /// Closes the core in the room that was found: its whole history, and what is left of it.
    pub(crate) fn into_closed(self, room: Reserved<J, J::Receipt>) -> (Vec<Mark>, Closed<J>)
        requires { IsRoomFor J.key_of self room }
        ensures marks { result.0.items ≡ closing (state J.key_of self) }
        ensures ran { result.1.ran.items ≡ map records_of self.processors.items }
        ensures back { map (λ v. map J.key_of v.items) result.1.back.items
            ≡ map left_keys (all_seen J.key_of self.processors.items) }
        ensures reports { AreReported (vec_len self.processors) result.0.items
            result.1.reports.items }
    {
        let Core { processors, .. } = self;
        let Reserved {
            mut marks,
            jobs,
            mut ran,
            mut back,
            mut reports,
        } = room;
        let n = processors.len();
        add_shuts(&processors, &mut marks);
        take_apart(processors, jobs, &mut ran, &mut back);
        add_backs(&back, &mut marks);
        add_reports(&marks, n, &mut reports);
        (marks, Closed { ran, back, reports })
    }
}
