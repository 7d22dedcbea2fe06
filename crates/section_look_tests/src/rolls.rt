// Edits rolled by a generator of numbers.
use configfs_tree::{Attr, Folder, FolderEdit, Nqn};
use link_rules::{Edit, LinkEdit};
use mem_bdev::Name;
use std::alloc::Global;
use std::process::Abort;

const SUBS: [&str; 2] = ["a", "b"];

const HOSTS: [&str; 2] = ["h", "i"];

const NSIDS: [u32; 6] = [1, 2, 2048, 1, 2, 2049];

const GROUPS: [u32; 5] = [1, 2, 3, 128, 129];

const PORTS: [u16; 2] = [1, 65_535];

const PATHS: [&str; 4] = ["/dev/ram0", "/dev/ram1", "/dev/none", "/dev/ram2"];

const ENABLES: [&str; 6] = ["0", "1", "1", "0", "2", "1"];

const GRPIDS: [&str; 4] = ["1", "2", "128", "129"];

const UUIDS: [&str; 3] = [
    "00000000-0000-0000-0000-000000000000",
    "00112233-4455-6677-8899-aabbccddeeff",
    "00112233",
];

const STATES: [&str; 6] = [
    "optimized",
    "non-optimized",
    "inaccessible",
    "persistent-loss",
    "change",
    "none",
];

const TRTYPES: [&str; 3] = ["loop", "tcp", "pci"];

/// What is done before a comparison: the drain of a namespace may end, and an edit is asked for.
#[derive(Drop)]
pub struct Turn {
    pub drain: Option<(Nqn, u32)>,
    pub edit: Edit,
}

/// A generator of numbers with a seed.
#[derive(Drop)]
pub struct Dice {
    pub state: u64,
}

impl Dice {
    /// A number below so many.
    pub fn roll(&mut self, sides: u64) -> u64 {
        self.state = self
            .state
            .wrapping_mul(6_364_136_223_846_793_005)
            .wrapping_add(1_442_695_040_888_963_407);
        let high = self.state >> 33;
        if sides == 0 { 0 } else { high % sides }
    }

    fn text(&mut self, from: &[&'static str]) -> &'static str {
        let at = self.roll(from.len() as u64) as usize;
        from.get(at).copied().unwrap_or("")
    }

    fn number(&mut self, from: &[u32]) -> u32 {
        let at = self.roll(from.len() as u64) as usize;
        from.get(at).copied().unwrap_or(0)
    }

    fn port(&mut self) -> u16 {
        let at = self.roll(PORTS.len() as u64) as usize;
        PORTS.get(at).copied().unwrap_or(0)
    }

    // The name of a subsystem.
    fn sub(&mut self, rt: &impl Abort, alloc: Global) -> Nqn {
        let text = self.text(&SUBS);
        named(rt, alloc, text)
    }

    /// An NSID.
    pub fn nsid(&mut self) -> u32 {
        self.number(&NSIDS)
    }

    fn host(&mut self, rt: &impl Abort, alloc: Global) -> Nqn {
        let text = self.text(&HOSTS);
        named(rt, alloc, text)
    }

    fn space(&mut self, rt: &impl Abort, alloc: Global) -> Folder {
        let sub = self.sub(rt, alloc);
        let nsid = self.nsid();
        Folder::Namespace(sub, nsid)
    }

    fn group(&mut self) -> Folder {
        let port = self.port();
        let group = self.number(&GROUPS);
        Folder::AnaGroup(port, group)
    }

    fn folder(&mut self, rt: &impl Abort, alloc: Global) -> Folder {
        match self.roll(6) {
            0 => Folder::Host(self.host(rt, alloc)),
            1 => Folder::Subsystem(self.sub(rt, alloc)),
            2 => Folder::Port(self.port()),
            3 => self.group(),
            _ => self.space(rt, alloc),
        }
    }

    fn set(&mut self, rt: &impl Abort, alloc: Global) -> FolderEdit {
        match self.roll(12) {
            0 => {
                let sub = self.sub(rt, alloc);
                let text = self.text(&["0", "1"]);
                written(rt, alloc, Folder::Subsystem(sub), Attr::AllowAnyHost, text)
            }
            1 => {
                let port = self.port();
                let text = self.text(&TRTYPES);
                written(rt, alloc, Folder::Port(port), Attr::Trtype, text)
            }
            2 | 3 => {
                let group = self.group();
                let text = self.text(&STATES);
                written(rt, alloc, group, Attr::AnaState, text)
            }
            _ => self.set_space(rt, alloc),
        }
    }

    fn set_space(&mut self, rt: &impl Abort, alloc: Global) -> FolderEdit {
        let space = self.space(rt, alloc);
        let (attr, text) = match self.roll(9) {
            0 => (Attr::AnaGrpid, self.text(&GRPIDS)),
            1 => (Attr::DeviceUuid, self.text(&UUIDS)),
            2 => (Attr::DeviceNguid, self.text(&UUIDS)),
            3 | 4 => (Attr::DevicePath, self.text(&PATHS)),
            _ => (Attr::Enable, self.text(&ENABLES)),
        };
        written(rt, alloc, space, attr, text)
    }

    fn link(&mut self, rt: &impl Abort, alloc: Global) -> LinkEdit {
        let sub = self.sub(rt, alloc);
        match self.roll(4) {
            0 => LinkEdit::AllowHost(sub, self.host(rt, alloc)),
            1 => LinkEdit::DisallowHost(sub, self.host(rt, alloc)),
            2 => LinkEdit::LinkSubsystem(self.port(), sub),
            _ => LinkEdit::UnlinkSubsystem(self.port(), sub),
        }
    }

    // The next edit.
    fn edit(&mut self, rt: &impl Abort, alloc: Global) -> Edit {
        match self.roll(12) {
            0 | 1 | 2 => Edit::Folder(FolderEdit::Mkdir(self.folder(rt, alloc))),
            3 => Edit::Folder(FolderEdit::Rmdir(self.folder(rt, alloc))),
            4 => Edit::Link(self.link(rt, alloc)),
            _ => Edit::Folder(self.set(rt, alloc)),
        }
    }

    fn drain(&mut self, rt: &impl Abort, alloc: Global) -> Option<(Nqn, u32)> {
        if self.roll(4) != 0 {
            return None;
        }
        let sub = self.sub(rt, alloc);
        let nsid = self.nsid();
        Some((sub, nsid))
    }

    /// The next turn.
    pub fn turn(&mut self, rt: &impl Abort, alloc: Global) -> Turn {
        let drain = self.drain(rt, alloc);
        let edit = self.edit(rt, alloc);
        Turn { drain, edit }
    }
}

/// The NQN of a text.
pub fn named(rt: &impl Abort, alloc: Global, text: &str) -> Nqn {
    let made = Nqn::new(alloc, text.as_bytes()).expect(rt, "memory");
    made.expect(rt, "an NQN")
}

/// The edit that writes an attribute.
pub fn written(
    rt: &impl Abort,
    alloc: Global,
    folder: Folder,
    attr: Attr,
    text: &str,
) -> FolderEdit {
    let value = Name::copied(alloc, text.as_bytes()).expect(rt, "memory");
    FolderEdit::Set(folder, attr, value)
}
