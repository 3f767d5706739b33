//! A job that waits, and what is kept of one that ran.

ghost use Rattle.std.specs.Prelude.{◌≡◌};

use crate::job::Job;

/// A job that was accepted and waits for its grace period (docs/specification/rules.md, "Callbacks and stamps").
#[derive(Debug, Drop)]
pub struct Callback<J> {
    /// The processor that accepted it.
    pub cpu: u64,
    /// Its place among the callbacks of that processor, in the order of their acceptance, from 0.
    pub number: u64,
    /// The job's key.
    pub key: u64,
    /// The grace-period number that its processor saw right after the accepting step.
    pub stamp: u64,
    pub job: J,
}

/// What is kept of a callback that ran.
#[derive(Debug, Drop)]
pub struct Record<R> {
    /// The callback's number.
    pub number: u64,
    /// The key of its job.
    pub key: u64,
    /// The callback's stamp.
    pub stamp: u64,
    /// The grace-period number by which it might run: at least `snap(stamp)`.
    pub ready: u64,
    /// What the job gave.
    pub receipt: R,
}

/// Runs the job of a callback that a look at the number `ready` found ready. The record's key is read from the job.
pub fn run_callback<J: Job>(callback: Callback<J>, ready: u64) -> Record<J::Receipt>
    ensures number { result.number ≡ callback.number }
    ensures stamp { result.stamp ≡ callback.stamp }
    ensures ready { result.ready ≡ ready }
    ensures key { result.key ≡ J.key_of callback.job }
    ensures given { J.gives result.key result.receipt }
{
    let Callback {
        cpu: _,
        number,
        key: _,
        stamp,
        job,
    } = callback;
    let key = job.key();
    let receipt = job.run();
    Record {
        number,
        key,
        stamp,
        ready,
        receipt,
    }
}
