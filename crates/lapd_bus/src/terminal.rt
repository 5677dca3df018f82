ghost use Rattle.std.specs.Prelude.{◌≡◌, ◌++◌, ◌<◌, [], map, IfOk, IfSome, OnOk};
ghost use Rattle.lapd_sides.specs.User.{User};
ghost use Rattle.lapd_sides_links.specs.Effects.{no_effects};
ghost use Rattle.lapd_side_events.specs.Interface.{Configs, user_behaviour};
ghost use Rattle.lapd_side_events.specs.SideView.{SideView};
ghost use Rattle.lapd_side_events.specs.Bus.{connected};
ghost use Rattle.lapd_bus.specs.Shows.{ShowTerminal, joining, reached_by};
ghost use Rattle.lapd_bus.specs.declared.bus_move.Outcome.TheVariants.{Made};
ghost use Rattle.lapd_bus.specs.Moves.{Asks, Expires, Takes, TerminalDoes, TerminalStays};

use crate::bus_move::{NewTerminal, Outcome};
use crate::line::Line;
use lapd_sides::{Acts, Config, FrameOctets, Request, UserSide};
use std::alloc::{AllocError, Global};

/// A terminal, with its line in both directions.
#[derive(Drop)]
pub struct Terminal {
    pub(crate) side: UserSide,
    /// The octets in transit to the terminal.
    pub(crate) incoming: Line,
    /// The octets in transit from the terminal.
    pub(crate) outgoing: Line,
}

impl Terminal {
    /// Creates a terminal without octets in transit.
    ///
    /// # Errors
    ///
    /// `AllocError` if an allocation failed.
    pub fn new(alloc: Global, config: Config, new: NewTerminal) -> Result<Terminal, AllocError>
        requires { IfSome new.fixed (λ tei. tei < 127) }
        ensures { IfOk result (λ terminal. (c : Configs) → c.user ≡ config
            → ShowTerminal terminal config (connected c (joining new))) }
    {
        Ok(Terminal {
            side: UserSide::with_seed(alloc, config, new.fixed, new.seed)?,
            incoming: Line::new(alloc),
            outgoing: Line::new(alloc),
        })
    }

    /// Takes the first octets in transit to it.
    ///
    /// # Errors
    ///
    /// `AllocError` if an allocation failed.
    pub fn take(&mut self, now: u64, acts: &mut Acts) -> Result<Outcome, AllocError>
        requires { acts.old ≡ no_effects }
        ensures { IfOk result (λ outcome. (config : Config) (t : SideView User)
            → ShowTerminal self.old config t → Takes now t.incoming
            (TerminalDoes self.new config acts.new t) (TerminalStays self.new config acts.new t)
            outcome) }
    {
        let Some(octets) = self.incoming.first() else {
            return Ok(Outcome::Nothing);
        };
        let Ok(()) = self.side.take(octets, now, acts) else {
            return Err(AllocError);
        };
        self.incoming.lose(0);
        self.send(acts)
    }

    /// Expires the first due timer.
    ///
    /// # Errors
    ///
    /// `AllocError` if an allocation failed.
    pub fn expire(&mut self, now: u64, acts: &mut Acts) -> Result<Outcome, AllocError>
        ensures { IfOk result (λ outcome. (config : Config) (t : SideView User)
            → ShowTerminal self.old config t → Expires now t.now.served
            (TerminalDoes self.new config acts.new t) (TerminalStays self.new config acts.new t)
            outcome) }
    {
        if self.side.tick(now, acts) {
            self.send(acts)
        } else {
            Ok(Outcome::Nothing)
        }
    }

    /// Executes a request.
    ///
    /// # Errors
    ///
    /// `AllocError` if an allocation failed.
    pub fn ask(
        &mut self,
        request: Request,
        now: u64,
        acts: &mut Acts,
    ) -> Result<Outcome, AllocError>
        ensures { IfOk result (λ outcome. (config : Config) (t : SideView User)
            → ShowTerminal self.old config t
            → Asks request now ((user_behaviour config).requested request now t.now)
            (TerminalDoes self.new config acts.new t) (TerminalStays self.new config acts.new t)
            outcome) }
    {
        match self.side.request(request, now, acts) {
            Ok(()) => self.send(acts),
            Err(fault) => Ok(Outcome::Refused(fault)),
        }
    }

    /// Puts these frames of the network in transit to it.
    fn receive(&mut self, frames: &[FrameOctets]) -> Result<(), AllocError>
        ensures { OnOk result (self.new
            ≡ reached_by (map (λ frame. frame.items) frames.now) self.old) }
    {
        self.incoming.append(frames)
    }

    /// Puts the frames of a call in transit to the network.
    fn send(&mut self, acts: &Acts) -> Result<Outcome, AllocError>
        ensures made { IfOk result (λ outcome. outcome ≡ Made) }
        ensures sent { OnOk result (self.new
            ≡ record self.old { outgoing = self.old.outgoing ++ acts.now.frames }) }
    {
        self.outgoing.append(acts.frames())?;
        Ok(Outcome::Made)
    }
}

/// Puts these frames of the network in transit to each of the terminals.
///
/// # Errors
///
/// `AllocError` if an allocation failed. They may be in transit to some of the terminals.
pub(crate) fn send_to_all(
    terminals: &mut [Terminal],
    frames: &[FrameOctets],
) -> Result<(), AllocError>
    ensures { OnOk result (terminals.new
        ≡ map (reached_by (map (λ frame. frame.items) frames.now)) terminals.old) }
{
    for terminal in terminals.iter_mut() {
        terminal.receive(frames)?;
    }
    Ok(())
}
