//! Parts of the target as plain data. No value of them is made.

use change_stamps::ChangeStamps;
use configfs_tree::{Configuration, Settings};
use sqe_cqe::ControllerRow;
use std::collections::LinkedList;
use tree_target::Reply;

/// What published calls alone change: the settings of the configuration, the controllers, and the
/// serials of last changes.
pub struct Fixed {
    pub settings: Settings,
    pub controllers: LinkedList<ControllerRow>,
    pub stamps: ChangeStamps,
}

/// What a queue is connected to, by names.
pub struct Bound {
    /// The controller's number, from 1.
    pub controller: u16,
    /// 0 on an admin queue.
    pub qid: u16,
    /// The NQN of the controller's subsystem.
    pub subsystem: LinkedList<u8>,
}

/// A queue: the ID of the port that it comes through, and its connection.
pub struct Binding {
    pub port: u16,
    pub bound: Option<Bound>,
}

/// What the calls that the editor's seat places change, and no other: the configuration with the
/// holders of disks, the controllers, the serials of last changes, and to what each queue is
/// connected (queues 1, 2, ..). The end of a drain changes it and isn't published.
pub struct Desk {
    pub tree: Configuration,
    pub controllers: LinkedList<ControllerRow>,
    pub stamps: ChangeStamps,
    pub bindings: LinkedList<Binding>,
}

/// What a call replies, and the bytes that the host gets.
pub struct Answer {
    pub reply: Reply,
    pub bytes: LinkedList<u8>,
}
