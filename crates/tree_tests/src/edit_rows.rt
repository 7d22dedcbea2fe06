// Accepted edits, each with what it tells and what differs in the whole tree, by the rules. A
// position is the lowest free one as the subsystem or the port is made.
use crate::edits::At::{Group, Host, Port, Space, Sub};
use crate::edits::Do;
use crate::edits::Do::{Mkdir, Rmdir, Set};
use configfs_tree::Attr::*;

/// An edit, what it tells, and what differs.
pub type Row = (Do, &'static str, &'static str);

/// What a folder has as it is made.
pub const MADE: &[Row] = &[
    (Mkdir(Host("h")), "published", "+host h"),
    (Mkdir(Host("g")), "published", "+host g"),
    (
        Mkdir(Sub("s")),
        "published subsystem 0",
        "+subsystem s 0 0 '00000000000000000001' 'Linux'",
    ),
    (
        Mkdir(Sub("r")),
        "published subsystem 1",
        "+subsystem r 1 0 '00000000000000000001' 'Linux'",
    ),
    (
        Mkdir(Space("s", 1)),
        "published namespace 0 1",
        "+namespace s 1 unset 00000000000000000000000000000000 00000000000000000000000000000000 1 off",
    ),
    (
        Mkdir(Space("r", 2048)),
        "published namespace 1 2048",
        "+namespace r 2048 unset 00000000000000000000000000000000 00000000000000000000000000000000 1 off",
    ),
    (
        Mkdir(Port(9)),
        "published port 0",
        "+port 9 0 '' '' '' '' 'not specified'; +group 9 1 optimized",
    ),
    (
        Mkdir(Port(0)),
        "published port 1",
        "+port 0 1 '' '' '' '' 'not specified'; +group 0 1 optimized",
    ),
    (
        Mkdir(Group(9, 2)),
        "published group 0 2, ANA of port 0",
        "-changes 0; +group 9 2 inaccessible; +changes 1",
    ),
    (
        Mkdir(Group(0, 128)),
        "published group 1 128, ANA of port 1",
        "-changes 1; +group 0 128 inaccessible; +changes 2",
    ),
];

/// Attributes of a subsystem. To write the value that stands changes nothing.
pub const SUBSYSTEM_SET: &[Row] = &[
    (Set(Sub("r"), AllowAnyHost, "0"), "same", ""),
    (
        Set(Sub("r"), AllowAnyHost, "1"),
        "published subsystem 1",
        "-subsystem r 1 0 '00000000000000000001' 'Linux'; +subsystem r 1 1 '00000000000000000001' 'Linux'",
    ),
    (Set(Sub("r"), AllowAnyHost, "1"), "same", ""),
    (
        Set(Sub("r"), AllowAnyHost, "0"),
        "published subsystem 1",
        "-subsystem r 1 1 '00000000000000000001' 'Linux'; +subsystem r 1 0 '00000000000000000001' 'Linux'",
    ),
    (
        Set(Sub("r"), Serial, "a b"),
        "published subsystem 1",
        "-subsystem r 1 0 '00000000000000000001' 'Linux'; +subsystem r 1 0 'a b' 'Linux'",
    ),
    (Set(Sub("r"), Serial, "a b"), "same", ""),
    (
        Set(Sub("r"), Serial, ""),
        "published subsystem 1",
        "-subsystem r 1 0 'a b' 'Linux'; +subsystem r 1 0 '' 'Linux'",
    ),
    (Set(Sub("r"), ModelName, "Linux"), "same", ""),
    (
        Set(Sub("r"), ModelName, "a disk"),
        "published subsystem 1",
        "-subsystem r 1 0 '' 'Linux'; +subsystem r 1 0 '' 'a disk'",
    ),
];

/// Attributes of a namespace, whose line is what stands between its number and its phase.
pub const NAMESPACE_SET: &[Row] = &[
    (
        Set(Space("s", 1), DevicePath, "/dev/none"),
        "published namespace 0 1",
        "-namespace s 1 unset 00000000000000000000000000000000 00000000000000000000000000000000 1 off; \
+namespace s 1 /dev/none 00000000000000000000000000000000 00000000000000000000000000000000 1 off",
    ),
    (Set(Space("s", 1), DevicePath, "/dev/none"), "same", ""),
    (
        Set(Space("s", 1), DevicePath, "/dev/ram1"),
        "published namespace 0 1",
        "-namespace s 1 /dev/none 00000000000000000000000000000000 00000000000000000000000000000000 1 off; \
+namespace s 1 /dev/ram1 00000000000000000000000000000000 00000000000000000000000000000000 1 off",
    ),
    (
        Set(
            Space("s", 1),
            DeviceUuid,
            "00112233-4455-6677-8899-aabbccddeeff",
        ),
        "published namespace 0 1",
        "-namespace s 1 /dev/ram1 00000000000000000000000000000000 00000000000000000000000000000000 1 off; \
+namespace s 1 /dev/ram1 00112233445566778899aabbccddeeff 00000000000000000000000000000000 1 off",
    ),
    (
        Set(
            Space("s", 1),
            DeviceUuid,
            "00112233445566778899AABBCCDDEEFF",
        ),
        "same",
        "",
    ),
    (
        Set(
            Space("s", 1),
            DeviceNguid,
            "{ffeeddcc-bbaa-9988-7766-554433221100}",
        ),
        "published namespace 0 1",
        "-namespace s 1 /dev/ram1 00112233445566778899aabbccddeeff 00000000000000000000000000000000 1 off; \
+namespace s 1 /dev/ram1 00112233445566778899aabbccddeeff ffeeddccbbaa99887766554433221100 1 off",
    ),
    (
        Set(
            Space("s", 1),
            DeviceNguid,
            "ffeeddcc-bbaa-9988-7766-554433221100",
        ),
        "same",
        "",
    ),
    (Set(Space("s", 1), AnaGrpid, "1"), "same", ""),
    (
        Set(Space("s", 1), AnaGrpid, "2"),
        "published namespace 0 1, ANA of subsystem 0",
        "-namespace s 1 /dev/ram1 00112233445566778899aabbccddeeff ffeeddccbbaa99887766554433221100 1 off; -changes 2; \
+namespace s 1 /dev/ram1 00112233445566778899aabbccddeeff ffeeddccbbaa99887766554433221100 2 off; +changes 3",
    ),
    (Set(Space("s", 1), AnaGrpid, "2"), "same", ""),
];

/// A namespace gets enabled and begins to drain. Its group is changed while it is enabled.
pub const TURNS: &[Row] = &[
    (Set(Space("s", 1), Enable, "0"), "same", ""),
    (
        Set(Space("s", 1), Enable, "1"),
        "published namespace 0 1, turns 0 1",
        "-namespace s 1 /dev/ram1 00112233445566778899aabbccddeeff ffeeddccbbaa99887766554433221100 2 off; \
+namespace s 1 /dev/ram1 00112233445566778899aabbccddeeff ffeeddccbbaa99887766554433221100 2 enabled",
    ),
    (Set(Space("s", 1), Enable, "1"), "same", ""),
    (
        Set(Space("s", 1), AnaGrpid, "128"),
        "published namespace 0 1, ANA of subsystem 0",
        "-namespace s 1 /dev/ram1 00112233445566778899aabbccddeeff ffeeddccbbaa99887766554433221100 2 enabled; -changes 3; \
+namespace s 1 /dev/ram1 00112233445566778899aabbccddeeff ffeeddccbbaa99887766554433221100 128 enabled; +changes 4",
    ),
    (
        Set(Space("s", 1), Enable, "0"),
        "published namespace 0 1, turns 0 1, drains",
        "-namespace s 1 /dev/ram1 00112233445566778899aabbccddeeff ffeeddccbbaa99887766554433221100 128 enabled; \
+namespace s 1 /dev/ram1 00112233445566778899aabbccddeeff ffeeddccbbaa99887766554433221100 128 draining",
    ),
    (Set(Space("s", 1), Enable, "0"), "same", ""),
];

/// Addresses of a port and states of its groups.
pub const PORT_SET: &[Row] = &[
    (
        Set(Port(9), Trtype, "loop"),
        "published port 0",
        "-port 9 0 '' '' '' '' 'not specified'; +port 9 0 'loop' '' '' '' 'not specified'",
    ),
    (Set(Port(9), Trtype, "loop"), "same", ""),
    (
        Set(Port(9), Adrfam, "ipv6"),
        "published port 0",
        "-port 9 0 'loop' '' '' '' 'not specified'; +port 9 0 'loop' 'ipv6' '' '' 'not specified'",
    ),
    (
        Set(Port(9), Traddr, "::1"),
        "published port 0",
        "-port 9 0 'loop' 'ipv6' '' '' 'not specified'; +port 9 0 'loop' 'ipv6' '::1' '' 'not specified'",
    ),
    (
        Set(Port(9), Trsvcid, "4420"),
        "published port 0",
        "-port 9 0 'loop' 'ipv6' '::1' '' 'not specified'; +port 9 0 'loop' 'ipv6' '::1' '4420' 'not specified'",
    ),
    (
        Set(Port(9), Treq, "not required"),
        "published port 0",
        "-port 9 0 'loop' 'ipv6' '::1' '4420' 'not specified'; +port 9 0 'loop' 'ipv6' '::1' '4420' 'not required'",
    ),
    (Set(Port(9), Treq, "not required"), "same", ""),
    (Set(Group(9, 1), AnaState, "optimized"), "same", ""),
    (
        Set(Group(9, 1), AnaState, "non-optimized"),
        "published group 0 1, ANA of port 0",
        "-group 9 1 optimized; -changes 4; +group 9 1 non-optimized; +changes 5",
    ),
    (
        Set(Group(9, 2), AnaState, "persistent-loss"),
        "published group 0 2, ANA of port 0",
        "-group 9 2 inaccessible; -changes 5; +group 9 2 persistent-loss; +changes 6",
    ),
    (
        Set(Group(0, 128), AnaState, "change"),
        "published group 1 128, ANA of port 1",
        "-group 0 128 inaccessible; -changes 6; +group 0 128 change; +changes 7",
    ),
    (Set(Group(0, 128), AnaState, "change"), "same", ""),
    (
        Set(Group(0, 1), AnaState, "inaccessible"),
        "published group 1 1, ANA of port 1",
        "-group 0 1 optimized; -changes 7; +group 0 1 inaccessible; +changes 8",
    ),
];

/// Folders are removed, and the lowest free position is given again.
pub const REMOVED: &[Row] = &[
    (
        Rmdir(Group(9, 2)),
        "published group 0 2, ANA of port 0",
        "-group 9 2 persistent-loss; -changes 8; +changes 9",
    ),
    (
        Rmdir(Port(9)),
        "published port 0",
        "-port 9 0 'loop' 'ipv6' '::1' '4420' 'not required'; -group 9 1 non-optimized",
    ),
    (
        Rmdir(Space("s", 1)),
        "published namespace 0 1",
        "-namespace s 1 /dev/ram1 00112233445566778899aabbccddeeff ffeeddccbbaa99887766554433221100 128 off",
    ),
    (
        Rmdir(Sub("s")),
        "published subsystem 0",
        "-subsystem s 0 0 '00000000000000000001' 'Linux'",
    ),
    (Rmdir(Host("h")), "published", "-host h"),
    (
        Mkdir(Sub("t")),
        "published subsystem 0",
        "+subsystem t 0 0 '00000000000000000001' 'Linux'",
    ),
    (
        Mkdir(Port(7)),
        "published port 0",
        "+port 7 0 '' '' '' '' 'not specified'; +group 7 1 optimized",
    ),
];
