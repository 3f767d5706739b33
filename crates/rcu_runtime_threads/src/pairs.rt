//! Processors with their workers, and each by themselves again.

ghost use Rattle.std.specs.Prelude.{◌≡◌, IfOk, map, vec_len};
ghost use Rattle.rcu_runtime_threads.specs.Rooms.{AreHalvesFor, IsRoomFor};

use crate::post::Post;
use crate::worker::WorkerEnd;
use std::alloc::{AllocError, Global};

/// Room for the processors, the workers and their ends.
#[derive(Drop)]
pub(crate) struct Halves<P, W> {
    pub(crate) processors: Vec<P>,
    pub(crate) workers: Vec<W>,
    pub(crate) ends: Vec<WorkerEnd>,
}

impl<P: Drop, W: Drop> Halves<P, W> {
    /// Room for so many, and none yet.
    ///
    /// # Errors
    ///
    /// Want of memory.
    pub(crate) fn with_room(alloc: Global, many: usize) -> Result<Halves<P, W>, AllocError>
        ensures { IfOk result (λ halves. AreHalvesFor many halves) }
    {
        Ok(Halves {
            processors: Vec::with_capacity(alloc, many)?,
            workers: Vec::with_capacity(alloc, many)?,
            ends: Vec::with_capacity(alloc, many)?,
        })
    }
}

/// Puts each worker to its processor, the first to the first.
pub(crate) fn pair<P: Drop, W: Drop>(
    processors: Vec<P>,
    workers: Vec<W>,
    room: Vec<Post<P, W>>,
) -> Vec<Post<P, W>>
    requires many { vec_len workers ≡ vec_len processors }
    requires room { IsRoomFor (vec_len processors) room }
    ensures processors { map (λ post. post.processor) result.items ≡ processors.items }
    ensures workers { map (λ post. post.worker) result.items ≡ workers.items }
{
    let mut posts = room;
    let mut others = workers.into_iter();
    for processor in processors {
        let Some(worker) = others.next() else {
            unreachable!()
        };
        posts.push_reserved(Post {
            processor,
            worker,
            end: WorkerEnd::NotBegun,
        });
    }
    posts
}

/// Takes processors and workers from each other.
pub(crate) fn part<P: Drop, W: Drop>(posts: Vec<Post<P, W>>, room: Halves<P, W>) -> Halves<P, W>
    requires { AreHalvesFor (vec_len posts) room }
    ensures processors { result.processors.items ≡ map (λ post. post.processor) posts.items }
    ensures workers { result.workers.items ≡ map (λ post. post.worker) posts.items }
    ensures ends { result.ends.items ≡ map (λ post. post.end) posts.items }
{
    let Halves {
        mut processors,
        mut workers,
        mut ends,
    } = room;
    for post in posts {
        let Post {
            processor,
            worker,
            end,
        } = post;
        processors.push_reserved(processor);
        workers.push_reserved(worker);
        ends.push_reserved(end);
    }
    Halves {
        processors,
        workers,
        ends,
    }
}
