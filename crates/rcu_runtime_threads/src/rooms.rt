//! Room for all lists of a run, which is found before anything is started.

ghost use Rattle.std.specs.Prelude.{◌≡◌, IfOk, vec_len};
ghost use Rattle.rcu_runtime_threads.specs.Rooms.{AreHalvesFor, IsRoomFor};

use crate::crew::Reserved;
use crate::pairs::Halves;
use crate::part::{Running, Station, Working};
use crate::signals::Signals;
use crate::worker::Worker;
use rcu_jobs::Job;
use rcu_parts::{Group, Hand, Parts, Processor};
use std::alloc::{AllocError, Global};
use std::sync::Arc;

/// Room for the posts, their threads and what comes back of them.
#[derive(Drop)]
struct PostRooms<J: Job, W: Worker<J>> {
    posts: Vec<Station<J, W>>,
    at_posts: Reserved<Working<J, W>, Station<J, W>>,
    halves: Halves<Processor<J>, W>,
}

/// Finds the room for the processors of these parts with as many workers.
///
/// # Errors
///
/// Want of memory.
fn find_post_rooms<J: Job, W: Worker<J>>(
    alloc: Global,
    parts: &Parts<J>,
) -> Result<PostRooms<J, W>, AllocError>
    ensures posts { IfOk result (λ rooms.
        IsRoomFor (vec_len parts.now.processors) rooms.posts) }
    ensures at_posts { IfOk result (λ rooms.
        rooms.at_posts.many ≡ vec_len parts.now.processors) }
    ensures halves { IfOk result (λ rooms.
        AreHalvesFor (vec_len parts.now.processors) rooms.halves) }
{
    let many = parts.processors.len();
    let posts = Vec::with_capacity(alloc, many)?;
    let at_posts = Reserved::new(alloc, many)?;
    let halves = Halves::with_room(alloc, many)?;
    Ok(PostRooms {
        posts,
        at_posts,
        halves,
    })
}

/// Room for the threads of the groups and the hands, and for what comes back of them.
#[derive(Drop)]
struct OtherRooms<J: Job> {
    groups: Reserved<Running<Group<J>>, Group<J>>,
    hands: Reserved<Running<Hand<J>>, Hand<J>>,
}

/// Finds the room for the groups and the hands of these parts.
///
/// # Errors
///
/// Want of memory.
fn find_other_rooms<J: Job>(alloc: Global, parts: &Parts<J>) -> Result<OtherRooms<J>, AllocError>
    ensures { IfOk result (λ rooms.
        (rooms.groups.many ≡ vec_len parts.now.groups)
        × (rooms.hands.many ≡ vec_len parts.now.hands)) }
{
    let groups = Reserved::new(alloc, parts.groups.len())?;
    let hands = Reserved::new(alloc, parts.hands.len())?;
    Ok(OtherRooms { groups, hands })
}

/// Room for what a run puts into lists, and its signals.
#[derive(Drop)]
pub(crate) struct AllReserved<J: Job, W: Worker<J>> {
    pub(crate) signals: Arc<Signals, Global>,
    pub(crate) posts: Vec<Station<J, W>>,
    pub(crate) at_posts: Reserved<Working<J, W>, Station<J, W>>,
    pub(crate) halves: Halves<Processor<J>, W>,
    pub(crate) groups: Reserved<Running<Group<J>>, Group<J>>,
    pub(crate) hands: Reserved<Running<Hand<J>>, Hand<J>>,
}

impl<J: Job, W: Worker<J>> AllReserved<J, W> {
    /// Finds the room for these parts and as many workers as processors.
    ///
    /// # Errors
    ///
    /// Want of memory.
    pub(crate) fn new(alloc: Global, parts: &Parts<J>) -> Result<AllReserved<J, W>, AllocError>
        ensures posts { IfOk result (λ rooms.
            IsRoomFor (vec_len parts.now.processors) rooms.posts) }
        ensures at_posts { IfOk result (λ rooms.
            rooms.at_posts.many ≡ vec_len parts.now.processors) }
        ensures halves { IfOk result (λ rooms.
            AreHalvesFor (vec_len parts.now.processors) rooms.halves) }
        ensures others { IfOk result (λ rooms.
            (rooms.groups.many ≡ vec_len parts.now.groups)
            × (rooms.hands.many ≡ vec_len parts.now.hands)) }
    {
        let signals = Arc::new(alloc, Signals::new())?;
        let rooms = find_post_rooms(alloc, parts)?;
        let others = find_other_rooms(alloc, parts)?;
        let PostRooms {
            posts,
            at_posts,
            halves,
        } = rooms;
        let OtherRooms { groups, hands } = others;
        Ok(AllReserved {
            signals,
            posts,
            at_posts,
            halves,
            groups,
            hands,
        })
    }
}
