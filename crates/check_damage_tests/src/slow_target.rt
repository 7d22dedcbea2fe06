// The target of the finished run, in the plainest way: one namespace, its group, one block, and the
// events of one controller.
use run_check_tests::{ANSWERED, Capsule, Completion, HELD, NO_EVENT, WAITING};
use std::alloc::Global;
use std::test::Fail;

#[derive(Clone, Copy, PartialEq, Eq)]
enum Namespace {
    On,
    Draining,
    Off,
}

// What a kind of events has.
#[derive(Clone, Copy)]
struct Events {
    masked: bool,
    pending: bool,
}

impl Events {
    const NONE: Events = Events {
        masked: false,
        pending: false,
    };

    // Something of this kind has changed.
    fn note(&mut self) {
        if !self.masked {
            self.masked = true;
            self.pending = true;
        }
    }
}

// What a call replied, and the data that it gave.
#[derive(Drop)]
pub(crate) struct Made {
    pub(crate) answer: u8,
    pub(crate) completion: Completion,
    pub(crate) bytes: Vec<u8>,
}

#[derive(Drop)]
pub(crate) struct SlowTarget {
    alloc: Global,
    namespace: Namespace,
    is_holding: bool,
    block: u8,
    // Command identifiers of event requests, the newest at the end.
    waiting: Vec<u16>,
    has_changed: bool,
    namespaces: Events,
    groups: Events,
}

impl SlowTarget {
    pub(crate) fn new(alloc: Global) -> Self {
        SlowTarget {
            alloc,
            namespace: Namespace::On,
            is_holding: false,
            block: 0,
            waiting: Vec::new(alloc),
            has_changed: false,
            namespaces: Events::NONE,
            groups: Events::NONE,
        }
    }

    fn silent(&self, answer: u8) -> Made {
        Made {
            answer,
            completion: Completion::NONE,
            bytes: Vec::new(self.alloc),
        }
    }

    fn answered(&self, sq_id: u16, cid: u16, status: u16, value: u64) -> Made {
        Made {
            answer: ANSWERED,
            completion: Completion {
                result: value,
                sq_head: 0,
                sq_id,
                cid,
                status,
            },
            bytes: Vec::new(self.alloc),
        }
    }

    // A fabrics command: a Connect finds controller 1 or makes it, a property has no result.
    pub(crate) fn control(&self, capsule: Capsule, cid: u16) -> Made {
        match capsule {
            Capsule::Connect(qid) => self.answered(qid, cid, 0, 1),
            _ => self.answered(0, cid, 0, 0),
        }
    }

    // The changed list: namespace 1 where it has changed; from now on the next change is noticed.
    fn changed_list(&mut self, cid: u16) -> Result<Made, Fail> {
        let mut made = self.answered(0, cid, 0, 0);
        let first = if self.has_changed { 1 } else { 0 };
        made.bytes.extend_from_slice(&[first, 0, 0, 0])?;
        self.has_changed = false;
        self.namespaces.masked = false;
        Ok(made)
    }

    // A submit.
    pub(crate) fn submit(&mut self, capsule: Capsule, cid: u16) -> Result<Made, Fail> {
        match capsule {
            Capsule::Event => {
                self.waiting.push(cid)?;
                Ok(self.silent(WAITING))
            }
            Capsule::ChangedList => self.changed_list(cid),
            Capsule::Write(_, _) | Capsule::Read(_) | Capsule::Flush => {
                if self.namespace != Namespace::On {
                    return Ok(self.answered(1, cid, 0x0600, 0));
                }
                self.is_holding = true;
                Ok(self.silent(HELD))
            }
            _ => Ok(self.answered(0, cid, 0, 0)),
        }
    }

    // The execute of the command that is held.
    pub(crate) fn execute(&mut self, capsule: Capsule, cid: u16) -> Result<Made, Fail> {
        self.is_holding = false;
        let mut made = self.answered(1, cid, 0, 0);
        match capsule {
            Capsule::Write(_, byte) => self.block = byte,
            Capsule::Read(_) => made.bytes.extend_from_slice(&[self.block; 512])?,
            _ => {}
        }
        Ok(made)
    }

    // A poll: events of namespaces come before those of groups, and the newest request is answered.
    pub(crate) fn poll(&mut self) -> Made {
        if !self.namespaces.pending && !self.groups.pending {
            return self.silent(NO_EVENT);
        }
        let Some(cid) = self.waiting.pop() else {
            return self.silent(NO_EVENT);
        };
        if self.namespaces.pending {
            self.namespaces.pending = false;
            return self.answered(0, cid, 0, 0x0004_0002);
        }
        self.groups.pending = false;
        self.answered(0, cid, 0, 0x000C_0302)
    }

    // The edit of a line of the script: whether it was made, or the errno.
    pub(crate) fn edit(&mut self, line: u32) -> Option<&'static str> {
        match line {
            3 => return Some("EEXIST"),
            5 => self.change(Namespace::Draining),
            6 => self.change(Namespace::On),
            7 => self.groups.note(),
            _ => {}
        }
        None
    }

    fn change(&mut self, namespace: Namespace) {
        self.namespace = namespace;
        self.has_changed = true;
        self.namespaces.note();
    }

    // Whether a drain is open, and whether it may end.
    pub(crate) fn is_draining(&self) -> bool {
        self.namespace == Namespace::Draining
    }

    pub(crate) fn may_end(&self) -> bool {
        !self.is_holding
    }

    pub(crate) fn end_drain(&mut self) {
        self.namespace = Namespace::Off;
    }
}
