ghost use Rattle.std.specs.Prelude.{◌≡◌, ◌<◌, [], ◌∷◌, ◌++◌, IfOk, length};
ghost use Rattle.mem_bdev.specs.Texts.{HasRoom};
ghost use Rattle.sqe_cqe.specs.Answers.{view_of};
ghost use Rattle.async_events.specs.Stamps.{begun};
ghost use Rattle.admin_commands.specs.Admin.{AdmitsAt, PollsAt, most_given};

use crate::admit::{AdminReply, admit_admin, poll_admin};
use async_events::Events;
use mem_bdev::Buffer;
use sqe_cqe::{Ctrl, Look, Sqe};
use std::alloc::{AllocError, Global};
use std::marker::Model;

/// The events of each controller, in the order of the controllers' numbers, from 1, with room for
/// 31. Contracts see the list of them.
#[derive(Drop)]
pub struct EventStates {
    states: Vec<Events>,
}

impl Model for EventStates {
    ghost use Rattle.std.specs.Prelude.{List, ◌≤◌};
    ghost use Rattle.std.specs.Vec.{vec_capacity};
    ghost use Rattle.async_events.specs.declared.events.Events.{Events};

    ghost Value = { List Events };

    ghost view = { λ s. s.states.items };

    ghost invariant = { λ s. 31 ≤ vec_capacity s.states };
}

impl EventStates {
    /// Of no controller, with room for 31.
    pub fn new(alloc: Global) -> Result<Self, AllocError>
        ensures { IfOk result (λ s. s ≡ []) }
    {
        let states = Vec::with_capacity(alloc, 31)?;
        Ok(EventStates { states })
    }

    /// Of the next controller, which connects at this serial with this keep alive time in
    /// milliseconds: its notices are on, and no event request waits. There are fewer than 31
    /// before, so no memory is taken.
    pub fn add(&mut self, since: u32, kato: u32)
        requires { length self.old < 31 }
        ensures { self.new ≡ self.old ++ begun since kato ∷ [] }
    {
        self.states.push_reserved(Events::new(since, kato));
    }

    /// Does a command of the admin queue of the controller at a place, counted from 0
    /// (`admit_admin`).
    pub fn admit<L: Look>(
        &mut self,
        at: usize,
        c: &Ctrl,
        e: &Sqe,
        look: &mut L,
        to: &mut Buffer,
    ) -> AdminReply
        requires there { at < length self.old }
        requires room { HasRoom to.old (most_given e.now) }
        ensures admits { let v = view_of (L.told (L.behind look.old)) c.now.bound in
            AdmitsAt v c.now e.now at self.old result to.old to.new self.new }
        ensures behind { L.behind look.new ≡ L.behind look.old }
    {
        admit_admin(c, &mut self.states[at], e, look, to)
    }

    /// Polls the admin queue of the controller at a place, counted from 0 (`poll_admin`).
    pub fn poll<L: Look>(&mut self, at: usize, c: &Ctrl, look: &mut L) -> Option<(u16, u32)>
        requires { at < length self.old }
        ensures polls { let v = view_of (L.told (L.behind look.old)) c.now.bound in
            PollsAt v at self.old result self.new }
        ensures behind { L.behind look.new ≡ L.behind look.old }
    {
        poll_admin(c, &mut self.states[at], look)
    }
}
