ghost use Rattle.std.specs.Prelude.{◌≡◌, ◌≤◌};
ghost use Rattle.sqe_cqe.specs.Answers.{HasShape};
ghost use Rattle.look_tests.specs.Told.{number_at, offered_of, seen_of, state_of};
ghost use Rattle.sqe_cqe.specs.declared.rows.TheConstants.{MAX_NSID};

use sqe_cqe::{Ana, Bound, Ctrl, Look, MAX_NSID, NsRow, Offers, Seen};

/// At an NSID where no namespace is configured.
pub const NONE: u8 = 0;

/// At an NSID whose namespace is off. A number from 1 to 128 is the group of an enabled one.
pub const OFF: u8 = 255;

/// The position of the subsystem of `World::new`.
pub const SUBSYSTEM: u8 = 6;

/// The position of its port.
pub const PORT: u8 = 10;

/// A configuration of one subsystem and one port as plain arrays, for tests. Its namespaces have 16
/// blocks of 512 bytes.
#[derive(Drop)]
pub struct World<'a> {
    /// The subsystem and the port that there are; others show nothing.
    pub sub: u8,
    pub port: u8,
    pub ready: bool,
    /// What stands at NSID n, at n - 1; NONE past the end.
    pub slots: &'a [u8],
    /// The serial of the last namespace change of NSID n, at n - 1; 0 past the end.
    pub stamps: &'a [u32],
    /// The state of group g as its code in the log page, at g - 1; 0 where the group isn't made.
    pub states: &'a [u8],
    pub ana_stamp: u32,
    pub ana_count: u64,
    pub serial: u32,
    pub nsids: u32,
    pub uuid: [u8; 16],
    pub nguid: [u8; 16],
}

impl<'a> World<'a> {
    /// With these namespaces, serials of their last changes, and states of groups; all 2,048 NSIDs are
    /// offered, and everything else is zero.
    pub fn new(slots: &'a [u8], stamps: &'a [u32], states: &'a [u8]) -> Self {
        World {
            sub: SUBSYSTEM,
            port: PORT,
            ready: true,
            slots,
            stamps,
            states,
            ana_stamp: 0,
            ana_count: 0,
            serial: 0,
            nsids: MAX_NSID,
            uuid: [0; 16],
            nguid: [0; 16],
        }
    }
}

/// Controller 1 through its admin queue, connected at serial 0.
pub fn controller() -> Ctrl {
    Ctrl {
        bound: Bound {
            ctrl: 1,
            qid: 0,
            sub: SUBSYSTEM,
            port: PORT,
        },
        since: 0,
        subnqn: [0; 256],
        serial: [b' '; 20],
        model_name: [b' '; 40],
    }
}

/// A look at such a configuration.
#[derive(Drop)]
pub struct WorldLook<'a> {
    world: &'a World<'a>,
}

impl<'a> WorldLook<'a> {
    pub fn new(world: &'a World<'a>) -> Self {
        WorldLook { world }
    }
}

fn byte_at(list: &[u8], n: u32) -> u8
    ensures { result ≡ number_at list.now n }
{
    if n == 0 || n as usize > list.len() {
        return 0;
    }
    list[n as usize - 1]
}

// The highest NSID that is offered, where so many are wanted.
fn offered(nsids: u32) -> u32
    ensures value { result ≡ offered_of nsids }
    ensures most { result ≤ MAX_NSID }
{
    if nsids > MAX_NSID { MAX_NSID } else { nsids }
}

fn stamp_at(list: &[u32], n: u32) -> u32
    ensures { result ≡ number_at list.now n }
{
    if n == 0 || n as usize > list.len() {
        return 0;
    }
    list[n as usize - 1]
}

fn seen_at(world: &World<'_>, slot: u8) -> Seen
    ensures value { result ≡ seen_of world.now slot }
    ensures shape { HasShape result }
{
    if slot == NONE {
        return Seen::NotConfigured;
    }
    if slot > 128 {
        return Seen::Off;
    }
    Seen::On(NsRow {
        disk: 0,
        shift: 9,
        blocks: 16,
        group: slot,
        uuid: world.uuid,
        nguid: world.nguid,
    })
}

fn state_named(code: u8) -> Ana
    ensures { result ≡ state_of code }
{
    match code {
        1 => Ana::Optimized,
        2 => Ana::NonOptimized,
        4 => Ana::PersistentLoss,
        15 => Ana::Changing,
        _ => Ana::Inaccessible,
    }
}

impl<'a> Look for WorldLook<'a> {
    ghost use Rattle.look_tests.specs.declared.world.World.{World};
    ghost use Rattle.look_tests.specs.Told.{world_answers};

    ghost Behind = { World };

    ghost behind = { λ s. s.world.now };

    ghost told = { world_answers };

    ghost loads = { λ s. 0 };

    fn ready(&mut self, _ctrl: u16) -> bool {
        self.world.ready
    }

    fn ns(&mut self, sub: u8, nsid: u32) -> Seen {
        if sub != self.world.sub {
            return Seen::NotConfigured;
        }
        let slot = byte_at(self.world.slots, nsid);
        seen_at(self.world, slot)
    }

    fn ana(&mut self, port: u8, group: u32) -> Ana {
        if port != self.world.port {
            return Ana::Inaccessible;
        }
        state_named(byte_at(self.world.states, group))
    }

    fn group_made(&mut self, port: u8, group: u32) -> bool {
        port == self.world.port && byte_at(self.world.states, group) != 0
    }

    fn ns_stamp(&mut self, sub: u8, nsid: u32) -> u32 {
        if sub != self.world.sub {
            return 0;
        }
        stamp_at(self.world.stamps, nsid)
    }

    fn ana_stamp(&mut self, sub: u8, port: u8) -> u32 {
        if sub != self.world.sub || port != self.world.port {
            return 0;
        }
        self.world.ana_stamp
    }

    fn ana_count(&mut self) -> u64 {
        self.world.ana_count
    }

    fn serial(&mut self) -> u32 {
        self.world.serial
    }

    fn bars(&mut self, _ctrl: u16, _sub: u8, _nsid: u32, _opcode: u8) -> u16 {
        0
    }

    fn offers(&mut self) -> Offers {
        Offers {
            nsids: offered(self.world.nsids),
            oncs: 0x0008,
            nwpc: 0,
            rescap: 0,
        }
    }

    fn marks(&mut self, _sub: u8, _nsid: u32) -> u8 {
        0
    }

    fn group_count(&mut self, port: u8, sub: u8, _group: u32) -> u64 {
        if sub != self.world.sub || port != self.world.port {
            return 0;
        }
        self.world.ana_count
    }
}
