//! An office that takes commands and questions, one after the other.
ghost use Rattle.std.specs.Prelude.{◌≡◌, ◌∷◌, IfOk, IsOk, List, OnErr};
ghost use Rattle.office_core.specs.State.{State};
ghost use Rattle.office_core.specs.Rules.{step};
ghost use Rattle.office_core.specs.Json.{reply_text};
ghost use Rattle.office_core.specs.Queries.{answer};
ghost use Rattle.office_core.specs.declared.command.Command.{Command};

use crate::{Answer, Command, Done, Query, Refusal};
use isad_core::List;
use std::alloc::Global;

/// The reply to a command: what was done, or why it was refused, and the same as a JSON text.
#[derive(Debug, Drop)]
pub struct Reply {
    pub done: Result<Done, Refusal>,
    pub json: List<u8>,
}

/// Why the office cannot answer now. Its state is unchanged, but after a command a crash may find the state after that.
#[derive(Debug, Clone, Copy, PartialEq, Eq)]
pub enum Busy {
    /// There is not enough memory.
    Memory,
    /// The store's disk failed.
    Disk,
    /// The store's tables are not an office's.
    Schema,
}

/// An office that carries out commands and answers questions.
pub trait Machine {
    /// What is stored represents this state, which is sound.
    ghost represents: { Self → State → Type 0 };

    /// The store has returned what was written to it so far.
    ghost is_intact: { Self → Type 0 };

    /// What it stores can be seen: no failure of the disk has shut its store.
    ghost is_open: { Self → Type 0 };

    /// If a failure of the disk has shut its store, a crash finds this state, or that after one of these commands.
    ghost recovers: { Self → List Command → State → Type 0 };

    /// Carries out one command: the reply, its JSON and the new state are those of the machine's step. After an
    /// accepted command the office is open; an office that was shut stays shut. On `Busy` the state is unchanged, but a
    /// crash may find the state after this command. All this holds as long as the store has returned what was written.
    fn apply(&mut self, alloc: Global, command: Command) -> Result<Reply, Busy>
        ensures intact { is_intact self.new → is_intact self.old }
        ensures was_open { is_intact self.new → is_open self.new → is_open self.old }
        ensures kept { IfOk result (λ reply. is_intact self.new → IsOk reply.done → is_open self.new) }
        ensures step { IfOk result (λ reply. is_intact self.new → (s : State) → represents self.old s →
            represents self.new (step s command).0 × (reply.done ≡ (step s command).1)
            × (reply.json ≡ reply_text (step s command).1)) }
        ensures busy { OnErr result (is_intact self.new → (s : State) → represents self.old s
            → represents self.new s) }
        ensures found { IfOk result (λ reply. is_intact self.new → (s : State) → represents self.old s →
            (asked : List Command) → recovers self.old asked s → recovers self.new asked (step s command).0) }
        ensures doubt { OnErr result (is_intact self.new → (s : State) → represents self.old s →
            (asked : List Command) → recovers self.old asked s → recovers self.new (command ∷ asked) s) };

    /// Answers one question: the answer is the machine's. The state is unchanged, also on `Busy`, and so is what a
    /// crash may find. All this holds as long as the store has returned what was written.
    fn ask(&mut self, alloc: Global, query: Query) -> Result<Answer, Busy>
        ensures intact { is_intact self.new → is_intact self.old }
        ensures was_open { is_intact self.new → is_open self.new → is_open self.old }
        ensures answer { IfOk result (λ told. is_intact self.new → (s : State) → represents self.old s →
            represents self.new s × (told ≡ answer s query)) }
        ensures busy { OnErr result (is_intact self.new → (s : State) → represents self.old s
            → represents self.new s) }
        ensures found { is_intact self.new → (s : State) → represents self.old s →
            (asked : List Command) → recovers self.old asked s → recovers self.new asked s };
}
