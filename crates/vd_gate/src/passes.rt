//! How a gate is made and closed, and how passes are made and joined.
ghost use Rattle.std.specs.Prelude.{◌≡◌, ◌≢◌, ℕ, ◌+◌, ◌⊎◌, ◌<◌, ◌↔◌, List, [], IfOk, OnOk, OnErr, IsErr};
ghost use Rattle.vd_gate.specs.declared.story.PastTurn.{PastTurn};
ghost use Rattle.vd_gate.specs.Passes.{number_of, made_of, IsFree, IsFirstPass, IsNewPass, SameButMade};
ghost use Rattle.vd_gate.specs.Passes.{TakesOver, KnowsAllOf, IsHistoryOf};
ghost use Rattle.vd_gate.specs.Gates.{base_at, IsPassOf, AreAllPasses};

use crate::gate::{Gate, MOST_PASSES, Many, PASSES, TICKETS};
use crate::pass::GatePass;
use crate::steps::{DrawNumber, JoinViews, LearnOfJoin, SplitView};
use crate::story::Story;
use atomic_table::Table;
use std::alloc::{AllocError, Global};

impl<S: Story> GatePass<S> {
    /// The pass's number, from 0.
    pub fn number(&self) -> u32
        ensures { result ≡ number_of self.now }
    {
        self.number
    }
}

impl<S: Story> Gate<S> {
    /// A gate with this state, and its pass of number 0. On want of memory the state is dropped.
    pub fn new(alloc: Global, base: u32, state: S) -> Result<(Gate<S>, GatePass<S>), AllocError>
        requires { S.stands base state [] }
        ensures gate { IfOk result (λ g. (base_at g.0 ≡ base) × IsPassOf g.0 g.1 × IsFree g.1) }
        ensures pass { IfOk result (λ g. IsFirstPass g.1) }
    {
        let mut slots = Vec::new(alloc);
        slots.push(Some(state))?;
        let Ok((table, seat)) = Table::new(alloc, &[0, 0, 1], slots, &base) else {
            return Err(AllocError);
        };
        let pass = GatePass {
            seat,
            number: 0,
            made: 1,
        };
        Ok((Gate { table }, pass))
    }

    /// A pass with the next number, which has seen as much as this one. The pass of number 0 makes all others.
    pub fn split(&self, pass: &mut GatePass<S>) -> Result<GatePass<S>, Many>
        requires pass { IsPassOf self.now pass.old × IsFree pass.old }
        requires first { number_of pass.old ≡ 0 }
        ensures pass { IsPassOf self.now pass.new × IsFree pass.new × SameButMade pass.old pass.new }
        ensures ok { IfOk result (λ p. IsPassOf self.now p × IsFree p × IsNewPass (made_of pass.old) pass.old p) }
        ensures counted { OnOk result (made_of pass.new ≡ made_of pass.old + 1) }
        ensures err { IsErr result ↔ (made_of pass.old ≡ 64) }
        ensures not_counted { OnErr result (made_of pass.new ≡ made_of pass.old) }
    {
        if pass.made >= MOST_PASSES {
            return Err(Many);
        }
        let number = pass.made;
        let shared = &self.table.shared;
        shared.compare_exchange::<DrawNumber>(
            &mut pass.seat,
            PASSES,
            number as u64,
            number as u64 + 1,
        );
        let seat = shared.split_seat::<SplitView>(&mut pass.seat);
        pass.made = number + 1;
        Ok(GatePass {
            seat,
            number,
            made: 0,
        })
    }

    // `join`, and where both passes may be of number 0.
    fn take_over(&self, pass: &mut GatePass<S>, other: GatePass<S>)
        requires pass { IsPassOf self.now pass.old × IsFree pass.old }
        requires other { IsPassOf self.now other × IsFree other }
        requires first { (number_of other ≢ 0) ⊎ (number_of pass.old ≡ 0) }
        ensures pass { IsPassOf self.now pass.new × IsFree pass.new }
        ensures taken { TakesOver pass.old other pass.new }
    {
        let GatePass { seat, .. } = other;
        let shared = &self.table.shared;
        shared.join_seat::<JoinViews>(&mut pass.seat, seat);
        shared.load::<LearnOfJoin>(&mut pass.seat, TICKETS);
    }

    /// The pass answers for the numbers of both from now on. Its `blank` still counts its own turns alone.
    /// The pass of number 0 cannot be taken over.
    pub fn join(&self, pass: &mut GatePass<S>, other: GatePass<S>)
        requires pass { IsPassOf self.now pass.old × IsFree pass.old }
        requires other { IsPassOf self.now other × IsFree other }
        requires first { number_of other ≢ 0 }
        ensures pass { IsPassOf self.now pass.new × IsFree pass.new }
        ensures taken { TakesOver pass.old other pass.new }
    {
        self.take_over(pass, other);
    }

    // Two passes as one, which has number 0 where one of them has.
    fn gather(&self, main: GatePass<S>, pass: GatePass<S>) -> GatePass<S>
        requires main { IsPassOf self.now main × IsFree main }
        requires pass { IsPassOf self.now pass × IsFree pass }
        ensures pass { IsPassOf self.now result × IsFree result }
        ensures known { KnowsAllOf result main × KnowsAllOf result pass }
        ensures made { number_of result ≡ 0
            → ((number_of main ≡ 0) × (made_of result ≡ made_of main))
            ⊎ ((number_of pass ≡ 0) × (made_of result ≡ made_of pass)) }
    {
        if pass.number == 0 {
            let mut kept = pass;
            self.take_over(&mut kept, main);
            kept
        } else {
            let mut kept = main;
            self.take_over(&mut kept, pass);
            kept
        }
    }

    /// The state at the end. It stands for one history of all passes.
    pub fn close(self, mut passes: Vec<GatePass<S>>) -> S
        requires { AreAllPasses self passes.items }
        ensures { (turns : List (PastTurn S.Entry))
            × S.stands (base_at self) result turns × IsHistoryOf passes.items turns }
    {
        let Some(mut main) = passes.pop() else {
            unreachable!()
        };
        while let Some(pass) = passes.pop() {
            main = self.gather(main, pass);
        }
        let Gate { table } = self;
        let GatePass { seat, .. } = main;
        let mut closed = table.close_with(seat);
        let slot = closed.take(0);
        closed.free();
        let Some(state) = slot else { unreachable!() };
        state
    }
}
