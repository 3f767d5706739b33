//! Opening: all parts of a new board.

ghost use Rattle.std.specs.Prelude.{◌≡◌, ◌/◌, ◌<◌, ◌≤◌, [], ◌∷◌, List, IfOk, All, length};
ghost use Rattle.std.specs.Arc.{arc_value};
ghost use Rattle.std.specs.List.{AllZip};
ghost use Rattle.rcu_board.specs.Opened.{AreNew, InOrder, IsNewGroup, IsNewHand, IsNewProcessor, SeatForEach, has_offloadable, is_offloadable, numbers_where};
ghost use Rattle.rcu_part_lists.specs.ProcessorLists.{rear_of};
ghost use Rattle.rcu_part_lists.specs.MemberLists.{front_of};
ghost use Rattle.rcu_lanes.specs.Ends.{IsNewLane, items_drawn};
ghost use Rattle.rcu_part_group.specs.GroupLaw.{cpus_of, group_members_in};
ghost use Rattle.rcu_part_group.specs.Groups.{IsEmptyGroupMember};
ghost use Rattle.rcu_parts.specs.OneOpen.{AreOfOneOpen, AreSoundParts, HasHand, members_in};
ghost use Rattle.rcu_parts.specs.Openings.{AreFirstGroups, AreFirstHands, AreFirstProcessors, AreFronts, IsFirstHand, IsFirstProcessor, IsOpened, IsOpenedWith, fronts_of, TakesMember, TakesMembers};
ghost use Rattle.rcu_part_group.specs.declared.members.GroupMember.{GroupMember};

use crate::parts::{AllParts, Parts};
use rcu_board::{Board, Role, Seat, Seats, open_board};
use rcu_jobs::Job;
use rcu_lanes::{Front, ruled_lane};
use rcu_lists::Parcel;
use rcu_numbers::PartsShape;
use rcu_part_control::{Control, Driver};
use rcu_part_group::{Group, GroupMember, GroupMembers};
use rcu_part_hand::Hand;
use rcu_part_lists::{Held, LaneLimits, MemberLists, ProcessorLists};
use rcu_part_order::Kept;
use rcu_part_processor::Processor;
use std::alloc::{AllocError, Global};
use std::collections::VecDeque;
use std::sync::Arc;

/// A processor's part, and the other end of its lane.
fn open_processor<J: Job>(
    alloc: Global,
    shape: &PartsShape,
    board: &Arc<Board, Global>,
    seat: Seat,
    cpu: u64,
    kept: Kept,
) -> Result<(Processor<J>, Front<Parcel<J>, LaneLimits>), AllocError>
    requires seat { IsNewProcessor (arc_value board.now) cpu seat }
    requires there { cpu < (arc_value board.now).processors }
    ensures processor { IfOk result (λ t.
        IsFirstProcessor shape.now kept (arc_value board.now) cpu t.0) }
    ensures lane { IfOk result (λ t. IsNewLane t.1 (rear_of t.0.state.lists)) }
{
    let (front, rear) = ruled_lane::<Parcel<J>, LaneLimits>(alloc)?;
    let offloadable = board.is_offloadable(cpu);
    let lists = ProcessorLists::new(alloc, rear, offloadable, shape.qhimark)?;
    let own = Arc::try_clone(board)?;
    let processor = Processor::new(alloc, shape, own, seat, cpu, lists, kept);
    Ok((processor, front))
}

/// The processors' parts, and the other ends of the lanes of the offloadable ones.
fn open_processors<J: Job>(
    alloc: Global,
    shape: &PartsShape,
    board: &Arc<Board, Global>,
    seats: Vec<Seat>,
    kept: Kept,
) -> Result<(Vec<Processor<J>>, VecDeque<Front<Parcel<J>, LaneLimits>>), AllocError>
    requires seats { InOrder (IsNewProcessor (arc_value board.now)) 0 seats.items }
    requires many { length seats.items ≡ (arc_value board.now).processors }
    ensures processors { IfOk result (λ t.
        AreFirstProcessors shape.now kept (arc_value board.now) t.0.items) }
    ensures fronts { IfOk result (λ t. AreFronts t.0.items t.1.items) }
{
    let many = seats.len();
    let mut processors = Vec::with_capacity(alloc, many)?;
    let mut fronts = VecDeque::with_capacity(alloc, many)?;
    for seat in seats {
        let cpu = processors.len() as u64;
        let (processor, front) = open_processor(alloc, shape, board, seat, cpu, kept)?;
        processors.push_reserved(processor);
        if !board.is_offloadable(cpu) {
            continue;
        }
        fronts.push_back_reserved(front);
    }
    Ok((processors, fronts))
}

/// The member that offloadable processor `cpu` is of its group, and its hand. The done lane leads from one to the other.
fn open_hand<J: Job>(
    alloc: Global,
    shape: &PartsShape,
    board: &Arc<Board, Global>,
    seat: Seat,
    cpu: u64,
    front: Front<Parcel<J>, LaneLimits>,
    kept: Kept,
) -> Result<(GroupMember<J>, Hand<J>), AllocError>
    requires seat { IsNewHand (arc_value board.now) cpu seat }
    requires front { items_drawn front ≡ [] }
    ensures group_member { IfOk result (λ t.
        (t.0.cpu ≡ cpu) × (front_of t.0.member ≡ front) × IsEmptyGroupMember t.0) }
    ensures hand { IfOk result (λ t. IsFirstHand shape.now kept (arc_value board.now) cpu t.1) }
    ensures lane { IfOk result (λ t. HasHand t.0 t.1) }
{
    let (done_front, done_rear) = ruled_lane::<Parcel<J>, LaneLimits>(alloc)?;
    let own = Arc::try_clone(board)?;
    let member = MemberLists::new(alloc, front, done_rear)?;
    let held = Held::new(alloc, done_front);
    let hand = Hand::new(alloc, shape, own, seat, cpu, held, kept);
    Ok((GroupMember { cpu, member }, hand))
}

/// The members and the hands of all offloadable processors.
fn open_hands<J: Job>(
    alloc: Global,
    shape: &PartsShape,
    board: &Arc<Board, Global>,
    seats: Vec<Seat>,
    mut fronts: VecDeque<Front<Parcel<J>, LaneLimits>>,
    kept: Kept,
) -> Result<(VecDeque<GroupMember<J>>, Vec<Hand<J>>), AllocError>
    requires seats { SeatForEach (IsNewHand (arc_value board.now))
        (numbers_where (is_offloadable (arc_value board.now).offloadable) 0
        (arc_value board.now).processors) seats.items }
    requires many { length fronts.items ≡ length seats.items }
    requires fronts { All (λ front. items_drawn front ≡ []) fronts.items }
    ensures cpus { IfOk result (λ t.
        cpus_of t.0.items
        ≡ numbers_where (is_offloadable (arc_value board.now).offloadable) 0
        (arc_value board.now).processors) }
    ensures fronts { IfOk result (λ t. fronts_of t.0.items ≡ fronts.items) }
    ensures empty { IfOk result (λ t. All IsEmptyGroupMember t.0.items) }
    ensures hands { IfOk result
        (λ t. AreFirstHands shape.now kept (arc_value board.now) t.1.items) }
    ensures lanes { IfOk result (λ t. AllZip HasHand t.0.items t.1.items) }
{
    let many = seats.len();
    let mut group_members = VecDeque::with_capacity(alloc, many)?;
    let mut hands = Vec::with_capacity(alloc, many)?;
    for seat in seats {
        let Role::Hand(cpu) = seat.role() else {
            unreachable!()
        };
        let Some(front) = fronts.pop_front() else {
            unreachable!()
        };
        let (group_member, hand) = open_hand(alloc, shape, board, seat, cpu, front, kept)?;
        group_members.push_back_reserved(group_member);
        hands.push_reserved(hand);
    }
    Ok((group_members, hands))
}

/// Takes the first if it is of this group, where `stride` neighbours make a group.
fn take_member<J: Drop>(
    group_members: &mut VecDeque<GroupMember<J>>,
    stride: u64,
    group: u64,
) -> Option<GroupMember<J>>
    requires { 0 < stride }
    ensures { TakesMember stride group result group_members.old.items group_members.new.items }
{
    if group_members.front()?.cpu / stride != group {
        return None;
    }
    group_members.pop_front()
}

/// Takes the members of a group off the front, the first of which is one.
fn take_members<J: Drop>(
    alloc: Global,
    group_members: &mut VecDeque<GroupMember<J>>,
    stride: u64,
    group: u64,
) -> Result<GroupMembers<J>, AllocError>
    requires stride { 0 < stride }
    requires first { (m : GroupMember J) × (ms : List (GroupMember J))
        × (group_members.old.items ≡ m ∷ ms) × (m.cpu / stride ≡ group) }
    ensures { IfOk result (λ members.
        TakesMembers stride group (group_members_in members) group_members.old.items
        group_members.new.items) }
{
    let Some(first) = group_members.pop_front() else {
        unreachable!()
    };
    let mut members = GroupMembers::new(alloc, first);
    while let Some(group_member) = take_member(group_members, stride, group) {
        members.push(group_member)?;
    }
    Ok(members)
}

/// The groups' parts, each with its members.
fn open_groups<J: Job>(
    alloc: Global,
    shape: &PartsShape,
    board: &Arc<Board, Global>,
    seats: Vec<Seat>,
    mut group_members: VecDeque<GroupMember<J>>,
) -> Result<Vec<Group<J>>, AllocError>
    requires seats { SeatForEach (IsNewGroup (arc_value board.now))
        (numbers_where
        (has_offloadable (arc_value board.now).offloadable shape.now.stride
        (arc_value board.now).processors) 0 (arc_value board.now).processors) seats.items }
    requires cpus { cpus_of group_members.items
        ≡ numbers_where (is_offloadable (arc_value board.now).offloadable) 0
        (arc_value board.now).processors }
    requires empty { All IsEmptyGroupMember group_members.items }
    ensures groups { IfOk result (λ groups.
        AreFirstGroups shape.now (arc_value board.now) groups.items) }
    ensures members { IfOk result (λ groups. members_in groups.items ≡ group_members.items) }
{
    let mut groups = Vec::with_capacity(alloc, seats.len())?;
    for seat in seats {
        let Role::Group(number) = seat.role() else {
            unreachable!()
        };
        let own = Arc::try_clone(board)?;
        let members = take_members(alloc, &mut group_members, shape.stride, number)?;
        groups.push_reserved(Group::new(shape, own, seat, number, members));
    }
    Ok(groups)
}

/// A new board for all parts and for the driver's, and its seats.
fn share_board(
    alloc: Global,
    shape: &PartsShape,
) -> Result<(Arc<Board, Global>, Arc<Board, Global>, Seats), AllocError>
    ensures many { IfOk result (λ t. (arc_value t.0).processors ≡ shape.now.processors) }
    ensures mask { IfOk result (λ t. (arc_value t.0).offloadable ≡ shape.now.offloadable) }
    ensures same { IfOk result (λ t. arc_value t.1 ≡ arc_value t.0) }
    ensures seats { IfOk result (λ t. AreNew shape.now (arc_value t.0) t.2) }
{
    let (board, seats) = open_board(alloc, shape)?;
    let board = Arc::new(alloc, board)?;
    let drivers = Arc::try_clone(&board)?;
    Ok((board, drivers, seats))
}

/// Opens all parts of a new board of this shape (docs/specification/surface.md, "rcu_parts"). All lists and counts are
/// empty; exactly the offloadable processors are Offloaded and have a hand. The record of each callback that runs is kept until
/// [`close`](crate::close), which answers them all.
///
/// # Errors
///
/// Want of memory; then nothing was made.
pub fn open<J: Job>(alloc: Global, shape: &PartsShape) -> Result<Parts<J>, AllocError>
    ensures opened { IfOk result (λ parts. IsOpened shape.now parts) }
    ensures one { IfOk result (λ parts. AreOfOneOpen parts) }
    ensures sound { IfOk result (λ parts. AreSoundParts J.key_of J.gives parts) }
{
    open_with(alloc, shape, Kept::Whole)
}

/// Opens all parts as [`open`] does, and says what is kept of the callbacks that run: with [`Kept::Rest`] processors and hands
/// hand out their records while they run (`take_records`), and with [`Kept::Nothing`] memory doesn't grow with what ran.
///
/// # Errors
///
/// Want of memory; then nothing was made.
pub fn open_with<J: Job>(
    alloc: Global,
    shape: &PartsShape,
    kept: Kept,
) -> Result<Parts<J>, AllocError>
    ensures opened { IfOk result (λ parts. IsOpenedWith kept shape.now parts) }
    ensures one { IfOk result (λ parts. AreOfOneOpen parts) }
    ensures sound { IfOk result (λ parts. AreSoundParts J.key_of J.gives parts) }
{
    let (board, drivers, seats) = share_board(alloc, shape)?;
    let Seats {
        processors,
        hands,
        groups,
        driver,
        control,
    } = seats;
    let driver = Driver::new(drivers, driver);
    let (processors, fronts) = open_processors(alloc, shape, &board, processors, kept)?;
    let (group_members, hands) = open_hands(alloc, shape, &board, hands, fronts, kept)?;
    let groups = open_groups(alloc, shape, &board, groups, group_members)?;
    Ok(AllParts {
        processors,
        driver,
        groups,
        hands,
        control: Control::new(board, control),
    })
}
