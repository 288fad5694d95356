//! One call of an office.
ghost use Rattle.std.specs.Prelude.{◌≡◌, ◌∷◌, IfOk, IsOk, List, OnErr};
ghost use Rattle.office_core.specs.State.{State};
ghost use Rattle.office_core.specs.Rules.{step};
ghost use Rattle.office_core.specs.Json.{reply_text};
ghost use Rattle.office_core.specs.Queries.{answer};
ghost use Rattle.office_core.specs.declared.command.Command.{Command};

use office_core::{Answer, Busy, Command, Machine, Query, Reply};
use std::alloc::Global;

/// Leave to ask an office once, with the memory that this takes. Whoever asks gives it away, so what is done after the
/// office has answered has no allocator in reach. The two methods are a call of the office, and nothing else.
#[derive(Drop)]
pub struct OfficeCall {
    alloc: Global,
}

impl OfficeCall {
    /// Leave to ask an office once, with the memory of this allocator.
    pub fn new(alloc: Global) -> OfficeCall {
        OfficeCall { alloc }
    }

    /// Carries out one command: the reply, its JSON and the new state are those of the machine's step. After an
    /// accepted command the office is open; one that was shut stays shut. If it is busy, its state is unchanged, but a
    /// crash may find the state after this command. All this holds as long as its store has returned what was written.
    pub fn apply<M: Machine>(self, office: &mut M, command: Command) -> Result<Reply, Busy>
        ensures intact { M.is_intact office.new → M.is_intact office.old }
        ensures was_open { M.is_intact office.new → M.is_open office.new → M.is_open office.old }
        ensures kept { IfOk result (λ reply. M.is_intact office.new → IsOk reply.done → M.is_open office.new) }
        ensures step { IfOk result (λ reply. M.is_intact office.new → (s : State) → M.represents office.old s →
            M.represents office.new (step s command).0 × (reply.done ≡ (step s command).1)
            × (reply.json ≡ reply_text (step s command).1)) }
        ensures busy { OnErr result (M.is_intact office.new → (s : State) → M.represents office.old s
            → M.represents office.new s) }
        ensures found { IfOk result (λ reply. M.is_intact office.new → (s : State) → M.represents office.old s →
            (asked : List Command) → M.recovers office.old asked s → M.recovers office.new asked (step s command).0) }
        ensures doubt { OnErr result (M.is_intact office.new → (s : State) → M.represents office.old s →
            (asked : List Command) → M.recovers office.old asked s → M.recovers office.new (command ∷ asked) s) }
    {
        office.apply(self.alloc, command)
    }

    /// Answers one question: the answer is the machine's. The state is unchanged, also if the office is busy, and so is
    /// what a crash may find. All this holds as long as its store has returned what was written.
    pub fn ask<M: Machine>(self, office: &mut M, query: Query) -> Result<Answer, Busy>
        ensures intact { M.is_intact office.new → M.is_intact office.old }
        ensures was_open { M.is_intact office.new → M.is_open office.new → M.is_open office.old }
        ensures answer { IfOk result (λ told. M.is_intact office.new → (s : State) → M.represents office.old s →
            M.represents office.new s × (told ≡ answer s query)) }
        ensures busy { OnErr result (M.is_intact office.new → (s : State) → M.represents office.old s
            → M.represents office.new s) }
        ensures found { M.is_intact office.new → (s : State) → M.represents office.old s →
            (asked : List Command) → M.recovers office.old asked s → M.recovers office.new asked s }
    {
        office.ask(self.alloc, query)
    }
}
