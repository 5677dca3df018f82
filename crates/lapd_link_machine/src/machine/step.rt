//! A whole step.

ghost use Rattle.std.specs.Prelude.{◌≡◌, [], IfOk};
ghost use Rattle.lapd_mod128.specs.Counting.{Tagged};
ghost use Rattle.lapd_supervision.specs.StateVariables.{AreTags};
ghost use Rattle.lapd_link_definition.specs.EndOfStep.{end_step};
ghost use Rattle.lapd_link_definition.specs.End.{End, begin, new_end};
ghost use Rattle.lapd_link_definition.specs.Input.{input_of};
ghost use Rattle.lapd_link_definition.specs.Table.{row};

use crate::Outs;
use crate::machine::Machine;
use lapd_link_definition::{Event, Params, State};
use lapd_queue::IQueue;
use lapd_supervision::Window;
use std::alloc::{AllocError, Global};

#[tactic(auto, unfolding(lapd_link_definition::specs::End::begin, lapd_queue::specs::Waiting::with_room))]
impl Machine {
    ghost use Rattle.lapd_link_machine.specs.Bounds.{IsBounded};
    ghost use Rattle.lapd_link_machine.specs.Sent.{IsBetweenSteps};
    ghost use Rattle.lapd_link_machine.specs.Represents.{Represents};

    /// Makes a machine in state 4. It allocates its I queue.
    pub fn new(alloc: Global, params: Params) -> Result<Machine, AllocError>
        ensures end { IfOk result (λ m. Represents m [] (begin (new_end params))) }
        ensures between { IfOk result IsBetweenSteps }
    {
        let queue = IQueue::new(alloc, params.room())?;
        Ok(Machine {
            params,
            state: State::TeiAssigned,
            rc: 0,
            window: Window::new(),
            layer3_initiated: false,
            release_pending: false,
            t200: false,
            t203: false,
            queue,
        })
    }

    /// A step that is not refused: its row, and the end of the step.
    #[inline(always)]
    pub fn step(&mut self, event: Event, outs: &mut Outs)
        requires empty { outs.old.items ≡ [] }
        requires between { IsBetweenSteps self.old }
        ensures step { (e : End) → Represents self.old [] (begin e)
            → Represents self.new outs.new.items (end_step Tagged
            (row Tagged e.state (input_of event.entry) (begin e))) }
        ensures numbers { AreTags self.new.window }
        ensures bounded { IsBounded (input_of event.entry) outs.new.items }
    {
        self.row(event, outs);
        self.end_step(outs);
    }
}
