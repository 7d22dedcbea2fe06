ghost use Rattle.std.specs.Prelude.{◌≡◌};
ghost use Rattle.sqe_cqe.specs.Answers.{HasShape, shape-once};

use crate::look::Look;
use crate::rows::{Ana, MAX_NSID, Offers, Seen};

/// A configuration with one controller, one subsystem whose only NSID in use is 1, and one port whose only ANA group is
/// group 1: that of a simple plan, and of small tests.
#[derive(Clone, Copy, Debug, PartialEq, Eq)]
pub struct OneRow {
    /// Whether the controller is ready.
    pub ready: bool,
    /// What stands at NSID 1.
    pub seen: Seen,
    /// The state of group 1.
    pub ana: Ana,
    /// The status that bars the controller from every opcode, or 0.
    pub bars: u16,
    /// How many changes were published.
    pub serial: u32,
    /// The serial of the last namespace change of NSID 1, or 0.
    pub ns_stamp: u32,
    /// The serial of the last ANA change, or 0.
    pub ana_stamp: u32,
    /// How many ANA changes there were.
    pub ana_count: u64,
}

/// A look at a configuration with one namespace. It loads nothing that is counted.
#[derive(Drop)]
pub struct OneLook<'a> {
    /// The configuration that is looked at.
    pub row: &'a OneRow,
    ghost shape: { HasShape row.now.seen } by { shape-once row.now.seen },
}

impl<'a> OneLook<'a> {
    /// A look at this configuration.
    pub fn new(row: &'a OneRow) -> Self
        requires { HasShape row.now.seen }
        ensures { result.row.now ≡ row.now }
    {
        OneLook { row }
    }
}

impl<'a> Look for OneLook<'a> {
    ghost use Rattle.sqe_cqe.specs.declared.one.OneRow.{OneRow};
    ghost use Rattle.sqe_cqe.specs.One.{one_answers};

    ghost Behind = { OneRow };

    ghost behind = { λ s. s.row.now };

    ghost told = { one_answers };

    ghost loads = { λ s. 0 };

    fn ready(&mut self, _ctrl: u16) -> bool {
        self.row.ready
    }

    fn ns(&mut self, _sub: u8, nsid: u32) -> Seen {
        if nsid == 1 {
            self.row.seen
        } else {
            Seen::NotConfigured
        }
    }

    fn ana(&mut self, _port: u8, group: u32) -> Ana {
        if group == 1 {
            self.row.ana
        } else {
            Ana::Inaccessible
        }
    }

    fn group_made(&mut self, _port: u8, group: u32) -> bool {
        group == 1
    }

    fn ns_stamp(&mut self, _sub: u8, nsid: u32) -> u32 {
        if nsid == 1 { self.row.ns_stamp } else { 0 }
    }

    fn ana_stamp(&mut self, _sub: u8, _port: u8) -> u32 {
        self.row.ana_stamp
    }

    fn ana_count(&mut self) -> u64 {
        self.row.ana_count
    }

    fn serial(&mut self) -> u32 {
        self.row.serial
    }

    fn bars(&mut self, _ctrl: u16, _sub: u8, _nsid: u32, _opcode: u8) -> u16 {
        self.row.bars
    }

    fn offers(&mut self) -> Offers {
        Offers {
            nsids: MAX_NSID,
            oncs: 0x0008,
            nwpc: 0,
            rescap: 0,
        }
    }

    fn marks(&mut self, _sub: u8, _nsid: u32) -> u8 {
        0
    }

    fn group_count(&mut self, _port: u8, _sub: u8, _group: u32) -> u64 {
        self.row.ana_count
    }
}
