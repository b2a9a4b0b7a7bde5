//! How a pass takes a turn.
ghost use Rattle.std.specs.Prelude.{◌≡◌, ℕ, ◌%◌, true, false, List, None, Some};
ghost use Rattle.std.specs.List.{Contains};
ghost use mathlib.Core.List.{IsPrefix};
ghost use Rattle.vd_gate.specs.declared.story.PastTurn.{PastTurn};
ghost use Rattle.vd_gate.specs.Turns.{entries_by};
ghost use Rattle.vd_gate.specs.Rule.{modulus};
ghost use Rattle.vd_gate.specs.Steps.{HasDrawn, HasEntered};
ghost use Rattle.vd_gate.specs.Passes.{base_of, seen_of, mine_of, turns_of, IsFree, IsIn, IsNextTurn, SameButSeen, Leaves};
ghost use Rattle.vd_gate.specs.Gates.{IsPassOf};

use crate::gate::{Gate, SERVING, TICKETS};
use crate::pass::{GatePass, Turn};
use crate::steps::{AdvanceServing, DrawTicket, LoadServing, LoadTicket};
use crate::story::Story;
use crate::view::View;
use atomic_table::Seat;
use crossbeam_utils::Backoff;
use std::snapshot::Snapshot;
use std::sync::Wait;

impl<S: Story> Gate<S> {
    // Draws a ticket, and answers its low 64 bits.
    fn draw<R: Wait>(&self, rt: &R, seat: &mut Seat<Option<S>, View<S::Entry>>) -> u64
        requires seat { seat.old.table_id ≡ self.now.table.shared.table_id }
        requires live { seat.old.me.0.live ≡ true }
        requires free { (seat.old.me.0.ticket ≡ None) × (seat.old.me.0.holds ≡ false) }
        ensures seat { (seat.new.table_id ≡ seat.old.table_id) × (seat.new.id ≡ seat.old.id) }
        ensures drawn { HasDrawn result seat.old.me seat.new.me }
    {
        let shared = &self.table.shared;
        let backoff = Backoff::new();
        for _ in rt.forever() {
            let ticket = shared.load::<LoadTicket>(seat, TICKETS);
            let next = ticket.wrapping_add(1);
            if shared.compare_exchange::<DrawTicket>(seat, TICKETS, ticket, next) == ticket {
                return ticket;
            }
            backoff.spin();
        }
        unreachable!()
    }

    // Waits until the ticket is served, and takes the state out of the slot.
    // It spins for a short while, then yields, and then sleeps until the serving word changes.
    fn wait_for<R: Wait>(
        &self,
        rt: &R,
        seat: &mut Seat<Option<S>, View<S::Entry>>,
        ticket: u64,
    ) -> S
        requires seat { seat.old.table_id ≡ self.now.table.shared.table_id }
        requires drawn { (x : ℕ) × (seat.old.me.0.ticket ≡ Some x) × (x % modulus ≡ ticket) }
        requires free { seat.old.me.0.holds ≡ false }
        ensures seat { (seat.new.table_id ≡ seat.old.table_id) × (seat.new.id ≡ seat.old.id) }
        ensures entered { HasEntered S.stands result seat.old.me seat.new.me }
    {
        let shared = &self.table.shared;
        let backoff = Backoff::new();
        for _ in rt.forever() {
            let serving = shared.load::<LoadServing<S>>(seat, SERVING);
            if serving == ticket {
                let Some(state) = shared.exchange(seat, 0, None) else {
                    unreachable!()
                };
                return state;
            }
            if backoff.is_completed() {
                // A sleeper compares 32 bits. They tell any two tickets that are out apart.
                let low = serving & 0xffff_ffff;
                shared.park(rt, SERVING, low as u32);
            } else {
                backoff.snooze();
            }
        }
        unreachable!()
    }

    /// Waits for the pass's turn, and answers it with the state. No clause says that it returns, nor who goes first.
    pub fn enter<R: Wait>(&self, rt: &R, pass: &mut GatePass<S>) -> (Turn<S>, S)
        requires pass { IsPassOf self.now pass.old × IsFree pass.old }
        ensures pass { IsPassOf self.now pass.new × IsIn result.0 pass.new × SameButSeen pass.old pass.new }
        ensures seen { IsPrefix (seen_of pass.old) (turns_of result.0) }
        ensures state { S.stands (base_of pass.old) result.1 (turns_of result.0) }
        ensures mine { (n : ℕ) (es : List S.Entry)
            → Contains (mine_of pass.old) (n, es) → entries_by n (turns_of result.0) ≡ es }
    {
        let ticket = self.draw(rt, &mut pass.seat);
        let state = self.wait_for(rt, &mut pass.seat, ticket);
        let turn = Turn {
            at: Snapshot::of(&pass.seat),
        };
        (turn, state)
    }

    /// Ends the turn, with the state as it is from now on. The turn takes place here.
    ///
    /// The turn that is added is the one for which the state stands. By the story's law it is the only one of this pass.
    pub fn leave(&self, pass: &mut GatePass<S>, turn: Turn<S>, state: S)
        requires pass { IsPassOf self.now pass.old × IsIn turn pass.old }
        requires next { (t : PastTurn S.Entry) × IsNextTurn S.stands turn pass.old state t }
        ensures pass { IsPassOf self.now pass.new × IsFree pass.new }
        ensures next { (t : PastTurn S.Entry) → IsNextTurn S.stands turn pass.old state t → Leaves t pass.old pass.new }
    {
        let Turn { at: _ } = turn;
        let shared = &self.table.shared;
        let slot = shared.exchange(&mut pass.seat, 0, Some(state));
        let None = slot else { unreachable!() };
        let serving = shared.fetch_add::<AdvanceServing<S>>(&mut pass.seat, SERVING, 1);
        // Who draws a ticket after this look finds it served, and need not be woken.
        if shared.peek(TICKETS) != serving.wrapping_add(1) {
            shared.wake_all(SERVING);
        }
    }
}
