//! The end of all parts, in the room that was found.

ghost use Rattle.std.specs.Prelude.{◌≡◌, ◌≢◌, [], ◌∷◌};
ghost use Rattle.rcu_parts.specs.AtClose.{AccountsFor, ClosesWith};
ghost use Rattle.rcu_parts.specs.Ending.{all_view, board_at};
ghost use Rattle.rcu_parts.specs.OneOpen.{AreOfOneOpen, AreSoundParts};
ghost use Rattle.rcu_parts.specs.Rooms.{FitsAll};

use crate::parts::{AllParts, Parts};
use crate::room::Reserved;
use crate::seats::gather_groups;
use rcu_board::{Board, Gathered, Seat, merge};
use rcu_jobs::{Closed, Job, Record};
use rcu_part_close::{ProcessorEnd, closing, end_local, end_offloadable, settle};
use rcu_part_group::GroupMember;
use rcu_part_hand::{Hand, HandState, SeatedHand};
use rcu_part_processor::{Processor, ProcessorState};
use std::alloc::Global;
use std::collections::VecDeque;
use std::sync::Arc;

/// The parts as they end, a processor with its hand after another.
pub(crate) struct Ending<J: Job> {
    board: Arc<Board, Global>,
    /// The one seat that has taken in those of all parts that have ended.
    all: Gathered,
    /// What is left of those that have ended.
    ran: Vec<Vec<Record<J::Receipt>>>,
    back: Vec<Vec<J>>,
}

/// Takes the first of what is left.
fn take_first<T>(left: &mut VecDeque<T>) -> T
    requires { left.old.items ≢ [] }
    ensures { left.old.items ≡ result ∷ left.new.items }
{
    let Some(first) = left.pop_front() else {
        unreachable!()
    };
    first
}

impl<J: Job> Ending<J> {
    ghost use Rattle.std.specs.Prelude.{ℕ, ◌+◌, ◌<◌, suc, List, ◌++◌, vec_len, vec_capacity, Some, None, false};
    ghost use Rattle.rcu_board.specs.Seats.{AtBoard, GatheredAt, SameGathered, view};
    ghost use Rattle.rcu_board.specs.Views.{joined};
    ghost use Rattle.rcu_parts.specs.AtClose.{cpu_part, hand_for, hand_part, hands_after};
    ghost use Rattle.rcu_parts.specs.Ending.{EndsEach, EndsOne, GoesOn, IsReady, MayEnd};
    ghost use Rattle.rcu_part_hand.specs.Hands.{hand_board};
    ghost use Rattle.rcu_parts.specs.OneOpen.{HasHand, HasMember};
    ghost use Rattle.rcu_part_processor.specs.Processors.{board_of};
    ghost use Rattle.rcu_parts.specs.Rooms.{FitsCpu};
    ghost use Rattle.rcu_part_processor.specs.declared.processor.Processor.{Processor as One};

    /// Ends these processors, all that there are.
    fn end_each(
        &mut self,
        processors: Vec<Processor<J>>,
        mut members: VecDeque<GroupMember<J>>,
        mut hands: VecDeque<Hand<J>>,
        mut rooms: VecDeque<ProcessorEnd<J, J::Receipt>>,
    )
        requires ready { IsReady 0 processors.items members.items hands.items rooms.items self.old }
        ensures board { board_at self.new ≡ board_at self.old }
        ensures at { GatheredAt (board_at self.new) self.new.all }
        ensures ends { EndsEach J.key_of J.gives processors.items hands.items self.old self.new }
    {
        for processor in processors {
            self.end_one(processor, &mut members, &mut hands, &mut rooms);
        }
    }

    /// Ends the first of the processors that are left, with its hand if it has one.
    fn end_one(
        &mut self,
        processor: Processor<J>,
        members: &mut VecDeque<GroupMember<J>>,
        hands: &mut VecDeque<Hand<J>>,
        rooms: &mut VecDeque<ProcessorEnd<J, J::Receipt>>,
    )
        requires ready { (k : ℕ) × (rest : List (One J J.Receipt))
            × IsReady k (processor ∷ rest) members.old.items hands.old.items rooms.old.items
            self.old }
        ensures ready { (k : ℕ) (rest : List (One J J.Receipt))
            → IsReady k (processor ∷ rest) members.old.items hands.old.items rooms.old.items
            self.old
            → IsReady (suc k) rest members.new.items hands.new.items rooms.new.items self.new }
        ensures board { board_at self.new ≡ board_at self.old }
        ensures hands { hands.new.items ≡ hands_after processor hands.old.items }
        ensures ends { EndsOne J.key_of J.gives
            (cpu_part processor (hand_for processor hands.old.items)) self.old self.new }
    {
        let room = take_first(rooms);
        if !processor.is_offloadable() {
            self.end_alone(processor, room);
            return;
        }
        let member = take_first(members);
        let hand = take_first(hands);
        self.end_with_hand(processor, member, hand, room);
    }

    /// Ends a processor that has no hand.
    fn end_alone(&mut self, processor: Processor<J>, room: ProcessorEnd<J, J::Receipt>)
        requires may { MayEnd self.old }
        requires alone { processor.state.offloadable ≡ false }
        requires board { board_of processor.state ≡ board_at self.old }
        requires room { FitsCpu (cpu_part processor None) room }
        ensures goes_on { GoesOn self.old self.new }
        ensures ends { EndsOne J.key_of J.gives (cpu_part processor None) self.old self.new }
    {
        let ProcessorState {
            seat,
            ran,
            lists,
            ..
        } = rcu_part_processor::into_state(processor);
        let ProcessorEnd { ran: _, back } = room;
        self.take_in(seat);
        self.keep(end_local::<J>(lists, ran, back));
    }

    /// Ends a processor with its hand and its place in a group.
    fn end_with_hand(
        &mut self,
        processor: Processor<J>,
        group_member: GroupMember<J>,
        hand: Hand<J>,
        room: ProcessorEnd<J, J::Receipt>,
    )
        requires may { MayEnd self.old }
        requires board { board_of processor.state ≡ board_at self.old }
        requires hand_board { hand_board hand.state ≡ board_at self.old }
        requires member { HasMember processor group_member }
        requires hand { HasHand group_member hand }
        requires room { FitsCpu (cpu_part processor (Some (hand_part hand))) room }
        ensures goes_on { GoesOn self.old self.new }
        ensures ends { EndsOne J.key_of J.gives (cpu_part processor (Some (hand_part hand)))
            self.old self.new }
    {
        let ProcessorState {
            seat,
            ran,
            lists,
            ..
        } = rcu_part_processor::into_state(processor);
        let HandState {
            hand: SeatedHand {
                seat: hands_seat,
                ran: hands,
                held,
                ..
            },
        } = rcu_part_hand::into_state(hand);
        self.take_in(seat);
        self.take_in(hands_seat);
        self.keep(end_offloadable::<J>(lists, group_member.into_lists(), held, ran, hands, room));
    }

    /// Takes in a seat whose claims have ended.
    fn take_in(&mut self, seat: Seat)
        requires at { GatheredAt (board_at self.old) self.old.all }
        requires board { AtBoard (board_at self.old) seat }
        requires rests { (all_view self.old).running ≡ [] }
        requires joins { (view seat).running ≡ [] }
        ensures same { SameGathered self.old.all self.new.all }
        ensures view { all_view self.new ≡ joined (all_view self.old) (view seat) }
        ensures others { self.new ≡ record self.old { all = self.new.all } }
    {
        merge(&self.board, &mut self.all, seat);
    }

    /// Keeps what is left of a processor, in the room that there is.
    fn keep(&mut self, ended: ProcessorEnd<J, J::Receipt>)
        requires ran { vec_len self.old.ran < vec_capacity self.old.ran }
        requires back { vec_len self.old.back < vec_capacity self.old.back }
        ensures ran { self.new.ran.items ≡ self.old.ran.items ++ ended.ran ∷ [] }
        ensures back { self.new.back.items ≡ self.old.back.items ++ ended.back ∷ [] }
        ensures for_ran { (vec_len self.new.ran ≡ vec_len self.old.ran + 1)
            × (vec_capacity self.new.ran ≡ vec_capacity self.old.ran) }
        ensures for_back { (vec_len self.new.back ≡ vec_len self.old.back + 1)
            × (vec_capacity self.new.back ≡ vec_capacity self.old.back) }
        ensures others { self.new ≡ record self.old { ran = self.new.ran; back = self.new.back } }
    {
        self.ran.push_reserved(ended.ran);
        self.back.push_reserved(ended.back);
    }
}

/// Closes all parts, in the room that was found.
pub(crate) fn close_in<J: Job>(parts: Parts<J>, room: Reserved<J>) -> Closed<J>
    requires parts { AreOfOneOpen parts }
    requires room { FitsAll parts.processors.items parts.hands.items room }
    ensures accounts { AccountsFor parts result }
    ensures closes { AreSoundParts J.key_of J.gives parts
        → ClosesWith J.key_of J.gives parts result }
{
    let AllParts {
        processors,
        driver,
        groups,
        hands,
        control,
    } = parts;
    let Reserved {
        ends,
        members,
        ran,
        back,
        reports,
    } = room;
    let (board, seat) = control.into_parts();
    let mut all = Gathered::new(seat);
    merge(&board, &mut all, driver.into_seat());
    let members = gather_groups(&board, &mut all, groups, members);
    let mut ending = Ending {
        board,
        all,
        ran,
        back,
    };
    ending.end_each(
        processors,
        VecDeque::from(members),
        VecDeque::from(hands),
        VecDeque::from(ends),
    );
    let Ending {
        board,
        mut all,
        ran,
        back,
    } = ending;
    settle(&board, &mut all);
    closing::<J>();
    Closed { ran, back, reports }
}
