// The rows that the tests of the table run, each an edit with its answer. A row stands at the
// condition of a row of the table or just beside it; where two rows of the table hold, the
// answer is the first one's.
use crate::Attr::*;

// A folder, by texts and numbers.
#[derive(Clone, Copy)]
pub(crate) enum At {
    Host(&'static str),
    Sub(&'static str),
    Space(&'static str, u32),
    Port(u16),
    Group(u16, u32),
}

// An edit. Fill sets an attribute to so many letters.
#[derive(Clone, Copy)]
pub(crate) enum Do {
    Mkdir(At),
    Rmdir(At),
    Set(At, crate::Attr, &'static str),
    Fill(At, crate::Attr, usize),
}

use At::{Group, Host, Port, Space, Sub};
use Do::{Fill, Mkdir, Rmdir, Set};

pub(crate) type Row = (Do, &'static str);

// Texts, and whether they are NQNs.
pub(crate) const NQNS: &[(&str, bool)] = &[
    ("", false),
    ("!", true),
    ("~", true),
    ("nqn.2026-01.org.example:disk", true),
    (" ", false),
    ("\x7f", false),
    ("a b", false),
    ("/", false),
    ("a/b", false),
];

const DISCOVERY: &str = "nqn.2014-08.org.nvmexpress.discovery";

// One host, and subsystems without links and controllers.
pub(crate) const FRESH_SUBSYSTEM: &[Row] = &[
    (Rmdir(Host("h")), "ENOENT"),
    (Mkdir(Host("h")), "ok"),
    (Mkdir(Host("h")), "EEXIST"),
    (Mkdir(Sub(DISCOVERY)), "EINVAL"),
    (Mkdir(Sub("nqn.2014-08.org.nvmexpress.discover")), "ok"),
    (Mkdir(Sub("nqn.2014-08.org.nvmexpress.discoverya")), "ok"),
    (Mkdir(Host(DISCOVERY)), "ok"),
    (Rmdir(Sub("s")), "ENOENT"),
    (Set(Sub("s"), AllowAnyHost, "2"), "ENOENT"),
    (Fill(Sub("s"), Serial, 21), "ENOENT"),
    (Set(Sub("s"), ModelName, ""), "ENOENT"),
    (Mkdir(Sub("s")), "ok"),
    (Mkdir(Sub("s")), "EEXIST"),
    (Set(Sub("s"), AllowAnyHost, "2"), "EINVAL"),
    (Set(Sub("s"), AllowAnyHost, ""), "EINVAL"),
    (Set(Sub("s"), AllowAnyHost, "01"), "EINVAL"),
    (Set(Sub("s"), AllowAnyHost, "1"), "ok"),
    (Set(Sub("s"), AllowAnyHost, "0"), "ok"),
    (Fill(Sub("s"), Serial, 21), "EINVAL"),
    (Fill(Sub("s"), Serial, 20), "ok"),
    (Fill(Sub("s"), Serial, 0), "ok"),
    (Fill(Sub("s"), ModelName, 0), "EINVAL"),
    (Fill(Sub("s"), ModelName, 1), "ok"),
    (Fill(Sub("s"), ModelName, 41), "EINVAL"),
    (Fill(Sub("s"), ModelName, 40), "ok"),
];

// The host is allowed by a link.
pub(crate) const HOST_ALLOWED: &[Row] = &[
    (Rmdir(Host("h")), "EBUSY"),
    (Rmdir(Host(DISCOVERY)), "ok"),
    (Set(Sub("s"), AllowAnyHost, "1"), "EINVAL"),
    (Set(Sub("s"), AllowAnyHost, "0"), "ok"),
    (Rmdir(Sub("s")), "ENOTEMPTY"),
];

// It isn't any more.
pub(crate) const HOST_FREE: &[Row] = &[
    (Set(Sub("s"), AllowAnyHost, "1"), "ok"),
    (Rmdir(Host("h")), "ok"),
    (Rmdir(Host("h")), "ENOENT"),
    (Mkdir(Space("s", 1)), "ok"),
    (Rmdir(Sub("s")), "ENOTEMPTY"),
    (Rmdir(Space("s", 1)), "ok"),
    (Rmdir(Sub("s")), "ok"),
    (Rmdir(Sub("s")), "ENOENT"),
];

// Folders that aren't there, before any other row.
pub(crate) const NO_NAMESPACE: &[Row] = &[
    (Mkdir(Space("s", 0)), "ENOENT"),
    (Rmdir(Space("s", 1)), "ENOENT"),
    (Set(Space("s", 1), Enable, "2"), "ENOENT"),
    (Mkdir(Sub("s")), "ok"),
    (Rmdir(Space("s", 1)), "ENOENT"),
    (Set(Space("s", 1), DevicePath, ""), "ENOENT"),
    (Set(Space("s", 1), DeviceUuid, ""), "ENOENT"),
    (Set(Space("s", 1), DeviceNguid, ""), "ENOENT"),
    (Set(Space("s", 1), AnaGrpid, ""), "ENOENT"),
    (Set(Space("s", 1), Enable, ""), "ENOENT"),
    (Mkdir(Space("s", 0)), "EINVAL"),
    (Mkdir(Space("s", 2049)), "EINVAL"),
    (Mkdir(Space("s", 0xffff_ffff)), "EINVAL"),
    (Mkdir(Space("s", 2048)), "ok"),
    (Mkdir(Space("s", 2048)), "EEXIST"),
    (Mkdir(Space("s", 1)), "ok"),
    (Mkdir(Space("s", 1)), "EEXIST"),
    (Mkdir(Space("s", 2)), "ok"),
    (Rmdir(Space("s", 2)), "ok"),
];

// Namespace 1 comes to be enabled.
pub(crate) const PATHS: &[Row] = &[
    (Set(Space("s", 1), Enable, "2"), "EINVAL"),
    (Set(Space("s", 1), Enable, ""), "EINVAL"),
    (Set(Space("s", 1), Enable, "1"), "ENOENT"),
    (Set(Space("s", 1), Enable, "0"), "ok"),
    (Fill(Space("s", 1), DevicePath, 0), "EINVAL"),
    (Fill(Space("s", 1), DevicePath, 256), "EINVAL"),
    (Fill(Space("s", 1), DevicePath, 255), "ok"),
    (Set(Space("s", 1), DevicePath, " "), "EINVAL"),
    (Set(Space("s", 1), DevicePath, "/dev/ ram0"), "EINVAL"),
    (Set(Space("s", 1), DevicePath, "/dev/ram"), "ok"),
    (Set(Space("s", 1), Enable, "1"), "ENOENT"),
    (Set(Space("s", 1), DevicePath, "/dev/ram00"), "ok"),
    (Set(Space("s", 1), Enable, "1"), "ENOENT"),
    (Set(Space("s", 1), DevicePath, "/dev/ram0"), "ok"),
    (Set(Space("s", 1), Enable, "0"), "ok"),
    (Set(Space("s", 1), Enable, "1"), "ok"),
    (Set(Space("s", 1), Enable, "1"), "ok"),
];

// Namespace 1 is enabled.
pub(crate) const ENABLED: &[Row] = &[
    (Rmdir(Space("s", 1)), "EBUSY"),
    (Set(Space("s", 1), DevicePath, ""), "EBUSY"),
    (Set(Space("s", 1), DevicePath, "/dev/ram0"), "EBUSY"),
    (Set(Space("s", 1), DeviceUuid, "no"), "EBUSY"),
    (Set(Space("s", 1), DeviceNguid, "no"), "EBUSY"),
    (Set(Space("s", 1), Enable, "2"), "EINVAL"),
    (Set(Space("s", 2048), DevicePath, "/dev/ram0"), "ok"),
    (Set(Space("s", 2048), Enable, "1"), "EBUSY"),
    (Set(Space("s", 2048), Enable, "0"), "ok"),
    (Set(Space("s", 1), Enable, "0"), "ok"),
];

// Namespace 1 drains.
pub(crate) const DRAINING: &[Row] = &[
    (Rmdir(Space("s", 1)), "EBUSY"),
    (Set(Space("s", 1), DevicePath, ""), "EBUSY"),
    (Set(Space("s", 1), DevicePath, "/dev/ram1"), "EBUSY"),
    (Set(Space("s", 1), DeviceUuid, "no"), "EBUSY"),
    (Set(Space("s", 1), DeviceNguid, "no"), "EBUSY"),
    (Set(Space("s", 1), Enable, "2"), "EINVAL"),
    (Set(Space("s", 1), Enable, "1"), "EBUSY"),
    (Set(Space("s", 1), Enable, "0"), "ok"),
    (Set(Space("s", 2048), Enable, "1"), "EBUSY"),
    (Set(Space("s", 2048), DevicePath, "/dev/ram1"), "ok"),
    (Set(Space("s", 2048), Enable, "1"), "ok"),
];

// Namespace 1 is off, and 2048 is enabled on the other disk.
pub(crate) const OFF: &[Row] = &[
    (Set(Space("s", 1), DevicePath, "/dev/ram1"), "ok"),
    (Set(Space("s", 1), Enable, "1"), "EBUSY"),
    (Set(Space("s", 1), DevicePath, "/dev/ram0"), "ok"),
    (Set(Space("s", 1), Enable, "1"), "ok"),
    (Set(Space("s", 1), AnaGrpid, "2"), "ok"),
    (Mkdir(Space("s", 2)), "ok"),
];

// What texts mean, on namespace 2, which is off.
pub(crate) const UUIDS: &[Row] = &[
    (Set(Space("s", 2), DeviceUuid, ""), "EINVAL"),
    (
        Set(
            Space("s", 2),
            DeviceUuid,
            "ef90689c-6c46-d44c-89c1-4067801309a",
        ),
        "EINVAL",
    ),
    (
        Set(
            Space("s", 2),
            DeviceUuid,
            "ef90689c-6c46-d44c-89c1-4067801309a8",
        ),
        "ok",
    ),
    (
        Set(
            Space("s", 2),
            DeviceUuid,
            "{EF90689C-6C46-D44C-89C1-4067801309A8}",
        ),
        "ok",
    ),
    (
        Set(
            Space("s", 2),
            DeviceUuid,
            "urn:uuid:ef90689c-6c46-d44c-89c1-4067801309a8",
        ),
        "ok",
    ),
    (
        Set(
            Space("s", 2),
            DeviceNguid,
            "ef90689c6c46d44c89c14067801309a8",
        ),
        "ok",
    ),
    (
        Set(
            Space("s", 2),
            DeviceNguid,
            "ef90689c6c46d44c89c14067801309ag",
        ),
        "EINVAL",
    ),
];

pub(crate) const GROUPS_OF_NAMESPACES: &[Row] = &[
    (Set(Space("s", 2), AnaGrpid, ""), "EINVAL"),
    (Set(Space("s", 2), AnaGrpid, "0"), "EINVAL"),
    (Set(Space("s", 2), AnaGrpid, "01"), "EINVAL"),
    (Set(Space("s", 2), AnaGrpid, "1x"), "EINVAL"),
    (Set(Space("s", 2), AnaGrpid, "+1"), "EINVAL"),
    (Set(Space("s", 2), AnaGrpid, "129"), "EINVAL"),
    (Set(Space("s", 2), AnaGrpid, "1000"), "EINVAL"),
    (
        Set(Space("s", 2), AnaGrpid, "18446744073709551617"),
        "EINVAL",
    ),
    (Set(Space("s", 2), AnaGrpid, "1"), "ok"),
    (Set(Space("s", 2), AnaGrpid, "128"), "ok"),
    (Set(Space("s", 2), AnaGrpid, "128"), "ok"),
];

// Folders that aren't there, before any other row.
pub(crate) const NO_PORT: &[Row] = &[
    (Mkdir(Group(1, 129)), "ENOENT"),
    (Rmdir(Group(1, 1)), "ENOENT"),
    (Set(Group(1, 1), AnaState, "none"), "ENOENT"),
    (Rmdir(Port(1)), "ENOENT"),
    (Set(Port(1), Trtype, ""), "ENOENT"),
    (Set(Port(1), Adrfam, "none"), "ENOENT"),
    (Set(Port(1), Treq, ""), "ENOENT"),
    (Fill(Port(1), Traddr, 256), "ENOENT"),
    (Fill(Port(1), Trsvcid, 32), "ENOENT"),
    (Mkdir(Port(0)), "ok"),
    (Mkdir(Port(65_535)), "ok"),
    (Mkdir(Port(1)), "ok"),
    (Mkdir(Port(1)), "EEXIST"),
    (Rmdir(Port(65_535)), "ok"),
];

// ANA groups; six of these edits are ANA changes.
pub(crate) const GROUPS: &[Row] = &[
    (Mkdir(Group(1, 0)), "EINVAL"),
    (Mkdir(Group(1, 129)), "EINVAL"),
    (Mkdir(Group(1, 1)), "EEXIST"),
    (Mkdir(Group(1, 128)), "ok"),
    (Mkdir(Group(1, 128)), "EEXIST"),
    (Rmdir(Port(1)), "ENOTEMPTY"),
    (Rmdir(Group(1, 2)), "ENOENT"),
    (Rmdir(Group(1, 1)), "EPERM"),
    (Set(Group(1, 2), AnaState, "optimized"), "ENOENT"),
    (Set(Group(1, 128), AnaState, "inaccessible"), "ok"),
    (Set(Group(1, 128), AnaState, "non-optimized"), "ok"),
    (Set(Group(1, 128), AnaState, "persistent-loss"), "ok"),
    (Set(Group(1, 128), AnaState, "change"), "ok"),
    (Set(Group(1, 128), AnaState, "changing"), "EINVAL"),
    (Set(Group(1, 128), AnaState, ""), "EINVAL"),
    (Set(Group(1, 128), AnaState, "optimized"), "ok"),
    (Set(Group(1, 1), AnaState, "optimized"), "ok"),
    (Rmdir(Group(1, 128)), "ok"),
    (Rmdir(Group(1, 128)), "ENOENT"),
];

// Addresses of a port without links.
pub(crate) const ADDRESSES: &[Row] = &[
    (Set(Port(1), Trtype, ""), "EINVAL"),
    (Set(Port(1), Trtype, "pcie"), "EINVAL"),
    (Set(Port(1), Trtype, "tcp"), "ok"),
    (Set(Port(1), Trtype, "rdma"), "ok"),
    (Set(Port(1), Trtype, "fc"), "ok"),
    (Set(Port(1), Trtype, "loop"), "ok"),
    (Set(Port(1), Adrfam, "ipv5"), "EINVAL"),
    (Set(Port(1), Adrfam, "ipv4"), "ok"),
    (Set(Port(1), Adrfam, "ipv6"), "ok"),
    (Set(Port(1), Adrfam, "ib"), "ok"),
    (Set(Port(1), Adrfam, "fc"), "ok"),
    (Set(Port(1), Adrfam, "loop"), "ok"),
    (Set(Port(1), Adrfam, "pcie"), "ok"),
    (Set(Port(1), Adrfam, ""), "ok"),
    (Set(Port(1), Treq, ""), "EINVAL"),
    (Set(Port(1), Treq, "require"), "EINVAL"),
    (Set(Port(1), Treq, "required"), "ok"),
    (Set(Port(1), Treq, "not required"), "ok"),
    (Set(Port(1), Treq, "not specified"), "ok"),
    (Fill(Port(1), Trsvcid, 32), "EINVAL"),
    (Fill(Port(1), Trsvcid, 31), "ok"),
    (Fill(Port(1), Trsvcid, 0), "ok"),
    (Fill(Port(1), Traddr, 256), "EINVAL"),
    (Fill(Port(1), Traddr, 255), "ok"),
    (Set(Port(1), Traddr, "a b"), "ok"),
    (Mkdir(Sub("s")), "ok"),
    (Mkdir(Space("s", 1)), "ok"),
];

// Port 1 links the subsystem.
pub(crate) const LINKED: &[Row] = &[
    (Set(Port(1), Trtype, ""), "EACCES"),
    (Set(Port(1), Adrfam, "none"), "EACCES"),
    (Set(Port(1), Treq, ""), "EACCES"),
    (Fill(Port(1), Traddr, 256), "EACCES"),
    (Fill(Port(1), Trsvcid, 32), "EACCES"),
    (Set(Port(1), Traddr, "a b"), "EACCES"),
    (Set(Port(0), Traddr, "a b"), "ok"),
    (Rmdir(Port(1)), "ENOTEMPTY"),
    (Rmdir(Sub("s")), "EBUSY"),
    (Set(Sub("s"), Serial, "1"), "ok"),
    (Set(Sub("s"), ModelName, "1"), "ok"),
];

// A controller is attached through port 1 to the subsystem, and the link is gone.
pub(crate) const ATTACHED: &[Row] = &[
    (Rmdir(Port(1)), "EBUSY"),
    (Rmdir(Sub("s")), "EBUSY"),
    (Set(Sub("s"), Serial, "2"), "EINVAL"),
    (Set(Sub("s"), Serial, "1"), "EINVAL"),
    (Set(Sub("s"), ModelName, "2"), "EINVAL"),
    (Set(Sub("s"), ModelName, "1"), "EINVAL"),
    (Set(Sub("s"), AllowAnyHost, "1"), "ok"),
    (Set(Port(1), Traddr, "a"), "ok"),
    (Rmdir(Port(0)), "ok"),
    (Mkdir(Sub("u")), "ok"),
    (Set(Sub("u"), Serial, "1"), "ok"),
    (Set(Sub("u"), ModelName, "1"), "ok"),
    (Rmdir(Sub("u")), "ok"),
];
