// Texts with what they load to, and with what is saved of the tree that they make.

// What a text loads to: how many edits with how much passed over, no JSON, or the first member of
// another kind by its JSON pointer.
pub enum Answer {
    Loads(usize, u64),
    NotJson,
    Member(&'static str),
}

pub type Row = (&'static str, Answer);

// JSON itself, the top, and hosts.
pub const TOP: &[Row] = &[
    ("", Answer::NotJson),
    ("[1", Answer::NotJson),
    ("{}}", Answer::NotJson),
    ("{\"x\":1e400}", Answer::NotJson),
    ("{\"x\":\"\\ud800\"}", Answer::NotJson),
    ("[]", Answer::Member("")),
    ("1", Answer::Member("")),
    ("null", Answer::Member("")),
    ("{}", Answer::Loads(0, 0)),
    (" { \"hosts\" : [ ] } ", Answer::Loads(0, 0)),
    (
        "{\"x\":[{}],\"a/b\":1,\"c~d\":\"\\u0001\"}",
        Answer::Loads(0, 3),
    ),
    ("{\"x\":1,\"x\":2}", Answer::Loads(0, 1)),
    ("{\"hosts\":1,\"hosts\":[]}", Answer::Loads(0, 0)),
    ("{\"hosts\":{}}", Answer::Member("/hosts")),
    ("{\"hosts\":null}", Answer::Member("/hosts")),
    ("{\"hosts\":[1]}", Answer::Member("/hosts/0")),
    ("{\"hosts\":[{}]}", Answer::Member("/hosts/0/nqn")),
    (
        "{\"hosts\":[{\"nqn\":\"a\"},{\"nqn\":\"\"}]}",
        Answer::Member("/hosts/1/nqn"),
    ),
    (
        "{\"hosts\":[{\"nqn\":\"a/b\"}]}",
        Answer::Member("/hosts/0/nqn"),
    ),
    ("{\"hosts\":[{\"nqn\":7}]}", Answer::Member("/hosts/0/nqn")),
    (
        "{\"hosts\":[{\"nqn\":\"a\",\"x\":{\"nqn\":1}}],\"y\":0}",
        Answer::Loads(1, 2),
    ),
    (
        "{\"hosts\":[{\"nqn\":\"\",\"nqn\":\"b\"}]}",
        Answer::Loads(1, 0),
    ),
    (
        "{\"hosts\":[{\"nqn\":\"a\"},{}],\"subsystems\":1}",
        Answer::Member("/hosts/1/nqn"),
    ),
    (
        "{\"ports\":1,\"subsystems\":[{}]}",
        Answer::Member("/subsystems/0/nqn"),
    ),
];

// Subsystems: the member `subsystems` alone.
pub const SUBSYSTEMS: &[Row] = &[
    ("[{\"nqn\":\"s\"}]", Answer::Loads(1, 0)),
    (
        "[{\"allowed_hosts\":1}]",
        Answer::Member("/subsystems/0/nqn"),
    ),
    (
        "[{\"nqn\":\"s\",\"attr\":1,\"allowed_hosts\":1}]",
        Answer::Member("/subsystems/0/allowed_hosts"),
    ),
    (
        "[{\"nqn\":\"s\",\"attr\":{\"serial\":null},\"namespaces\":1}]",
        Answer::Member("/subsystems/0/attr/serial"),
    ),
    (
        "[{\"nqn\":\"s\",\"allowed_hosts\":[\"a\",\"\"]}]",
        Answer::Member("/subsystems/0/allowed_hosts/1"),
    ),
    (
        "[{\"nqn\":\"s\",\"allowed_hosts\":[\"a\",\"b\"]}]",
        Answer::Loads(3, 0),
    ),
    (
        "[{\"nqn\":\"s\",\"attr\":{\"serial\":18446744073709551615}}]",
        Answer::Loads(2, 0),
    ),
    (
        "[{\"nqn\":\"s\",\"attr\":{\"serial\":18446744073709551616}}]",
        Answer::Member("/subsystems/0/attr/serial"),
    ),
    (
        "[{\"nqn\":\"s\",\"attr\":{\"serial\":1.0}}]",
        Answer::Member("/subsystems/0/attr/serial"),
    ),
    (
        "[{\"nqn\":\"s\",\"attr\":{\"serial\":1e2}}]",
        Answer::Member("/subsystems/0/attr/serial"),
    ),
    (
        "[{\"nqn\":\"s\",\"attr\":{\"serial\":-0}}]",
        Answer::Member("/subsystems/0/attr/serial"),
    ),
    (
        "[{\"nqn\":\"s\",\"attr\":{\"serial\":true}}]",
        Answer::Member("/subsystems/0/attr/serial"),
    ),
    (
        "[{\"nqn\":\"s\",\"attr\":{\"model\":\" ~\"}}]",
        Answer::Loads(2, 0),
    ),
    (
        "[{\"nqn\":\"s\",\"attr\":{\"model\":\"\\u001f\"}}]",
        Answer::Member("/subsystems/0/attr/model"),
    ),
    (
        "[{\"nqn\":\"s\",\"attr\":{\"model\":\"\\u007f\"}}]",
        Answer::Member("/subsystems/0/attr/model"),
    ),
    (
        "[{\"nqn\":\"s\",\"attr\":{\"model\":\"\",\"version\":\"1.3\"},\"z\":1}]",
        Answer::Loads(2, 2),
    ),
    (
        "[{\"nqn\":\"s\",\"namespaces\":[{}]}]",
        Answer::Member("/subsystems/0/namespaces/0/nsid"),
    ),
];

// Namespaces: the items of `namespaces` of one subsystem. Each text is one namespace.
pub const NAMESPACES: &[Row] = &[
    ("{\"nsid\":4294967295}", Answer::Loads(2, 0)),
    ("{\"nsid\":\"4294967295\"}", Answer::Loads(2, 0)),
    (
        "{\"nsid\":4294967296}",
        Answer::Member("/subsystems/0/namespaces/0/nsid"),
    ),
    (
        "{\"nsid\":\"4294967296\"}",
        Answer::Member("/subsystems/0/namespaces/0/nsid"),
    ),
    (
        "{\"nsid\":\"01\"}",
        Answer::Member("/subsystems/0/namespaces/0/nsid"),
    ),
    (
        "{\"nsid\":\"\"}",
        Answer::Member("/subsystems/0/namespaces/0/nsid"),
    ),
    (
        "{\"nsid\":\"+1\"}",
        Answer::Member("/subsystems/0/namespaces/0/nsid"),
    ),
    (
        "{\"nsid\":-1,\"ana\":1}",
        Answer::Member("/subsystems/0/namespaces/0/nsid"),
    ),
    (
        "{\"nsid\":1,\"device\":{\"path\":\"/dev/ram0\",\"uuid\":\"x\",\"nguid\":7,\"z\":1}}",
        Answer::Loads(5, 1),
    ),
    (
        "{\"nsid\":1,\"device\":[]}",
        Answer::Member("/subsystems/0/namespaces/0/device"),
    ),
    (
        "{\"nsid\":1,\"device\":{\"path\":{}}}",
        Answer::Member("/subsystems/0/namespaces/0/device/path"),
    ),
    (
        "{\"nsid\":1,\"ana\":{\"grpid\":2},\"ana_grpid\":3}",
        Answer::Loads(3, 0),
    ),
    (
        "{\"nsid\":1,\"ana\":{\"grpid\":\"2\",\"x\":0}}",
        Answer::Loads(3, 1),
    ),
    ("{\"nsid\":1,\"ana\":{}}", Answer::Loads(2, 0)),
    (
        "{\"nsid\":1,\"ana\":1,\"ana_grpid\":3}",
        Answer::Member("/subsystems/0/namespaces/0/ana"),
    ),
    (
        "{\"nsid\":1,\"ana\":{\"grpid\":\"x\"}}",
        Answer::Member("/subsystems/0/namespaces/0/ana/grpid"),
    ),
    ("{\"nsid\":1,\"ana_grpid\":\"x\"}", Answer::Loads(3, 0)),
    ("{\"nsid\":1,\"enable\":0}", Answer::Loads(2, 0)),
    ("{\"nsid\":1,\"enable\":\"0\"}", Answer::Loads(2, 0)),
    ("{\"nsid\":1,\"enable\":1}", Answer::Loads(3, 0)),
    ("{\"nsid\":1,\"enable\":\"1\"}", Answer::Loads(3, 0)),
    (
        "{\"nsid\":1,\"enable\":2}",
        Answer::Member("/subsystems/0/namespaces/0/enable"),
    ),
    (
        "{\"nsid\":1,\"enable\":\"01\"}",
        Answer::Member("/subsystems/0/namespaces/0/enable"),
    ),
    (
        "{\"nsid\":1,\"enable\":true}",
        Answer::Member("/subsystems/0/namespaces/0/enable"),
    ),
];

// Ports: each text is one port.
pub const PORTS: &[Row] = &[
    ("{\"portid\":65535}", Answer::Loads(1, 0)),
    ("{\"portid\":\"65535\"}", Answer::Loads(1, 0)),
    ("{\"portid\":65536}", Answer::Member("/ports/0/portid")),
    ("{\"addr\":1}", Answer::Member("/ports/0/portid")),
    (
        "{\"portid\":1,\"addr\":{\"trtype\":\"\"}}",
        Answer::Loads(1, 0),
    ),
    (
        "{\"portid\":1,\"addr\":{\"trtype\":\"loop\",\"traddr\":\"\"}}",
        Answer::Loads(3, 0),
    ),
    (
        "{\"portid\":1,\"addr\":{\"trsvcid\":4420,\"x\":1},\"param\":{\"y\":{}}}",
        Answer::Loads(2, 2),
    ),
    (
        "{\"portid\":1,\"addr\":{\"treq\":[]}}",
        Answer::Member("/ports/0/addr/treq"),
    ),
    (
        "{\"portid\":1,\"referrals\":[{\"portid\":{}},7]}",
        Answer::Loads(1, 2),
    ),
    (
        "{\"portid\":1,\"referrals\":{}}",
        Answer::Member("/ports/0/referrals"),
    ),
    (
        "{\"portid\":1,\"referrals\":1,\"subsystems\":1}",
        Answer::Member("/ports/0/referrals"),
    ),
    (
        "{\"portid\":1,\"ana_groups\":[{\"grpid\":1,\"ana\":{\"state\":\"change\"}},{\"grpid\":2}]}",
        Answer::Loads(3, 0),
    ),
    (
        "{\"portid\":1,\"ana_groups\":[{\"grpid\":\"1\"},{\"ana\":1}]}",
        Answer::Member("/ports/0/ana_groups/1/grpid"),
    ),
    (
        "{\"portid\":1,\"ana_groups\":[{\"grpid\":2,\"ana\":{\"state\":null}}]}",
        Answer::Member("/ports/0/ana_groups/0/ana/state"),
    ),
    (
        "{\"portid\":1,\"ana_groups\":[{\"grpid\":2,\"ana\":{\"x\":0},\"y\":0}]}",
        Answer::Loads(2, 2),
    ),
    (
        "{\"portid\":1,\"subsystems\":[\"a\",\"b\"]}",
        Answer::Loads(3, 0),
    ),
    (
        "{\"portid\":1,\"subsystems\":[\"a\",1]}",
        Answer::Member("/ports/0/subsystems/1"),
    ),
];

// A file as nvmetcli writes it, and what is saved of its tree.
pub const EXAMPLE: &str =
    "{\"hosts\":[{\"nqn\":\"hostnqn\"}],\"ports\":[{\"addr\":{\"adrfam\":\"\",\"traddr\":\"\",\"treq\":\"not specified\",\"trsvcid\":\"\",\"trtype\":\"loop\"},\"param\":{\"inline_data_size\":\"16384\"},\"portid\":1,\"referrals\":[],\"subsystems\":[\"testnqn\"]}],\"subsystems\":[{\"allowed_hosts\":[\"hostnqn\"],\"attr\":{\"allow_any_host\":\"0\",\"cntlid_max\":\"65519\",\"cntlid_min\":\"1\",\"model\":\"Linux\",\"serial\":\"5aefdbbc0a7be8e7\",\"version\":\"1.3\"},\"namespaces\":[{\"ana_grpid\":1,\"device\":{\"nguid\":\"ef90689c-6c46-d44c-89c1-4067801309a8\",\"path\":\"/dev/ram0\"},\"enable\":1,\"nsid\":1}],\"nqn\":\"testnqn\"}]}";

pub const SAVED: &str =
    "{\"hosts\":[{\"nqn\":\"hostnqn\"}],\"ports\":[{\"addr\":{\"adrfam\":\"\",\"traddr\":\"\",\"treq\":\"not specified\",\"trsvcid\":\"\",\"trtype\":\"loop\"},\"ana_groups\":[{\"ana\":{\"state\":\"optimized\"},\"grpid\":1}],\"portid\":1,\"referrals\":[],\"subsystems\":[\"testnqn\"]}],\"subsystems\":[{\"allowed_hosts\":[\"hostnqn\"],\"attr\":{\"allow_any_host\":\"0\",\"model\":\"Linux\",\"serial\":\"5aefdbbc0a7be8e7\"},\"namespaces\":[{\"ana_grpid\":1,\"device\":{\"nguid\":\"ef90689c-6c46-d44c-89c1-4067801309a8\",\"path\":\"/dev/ram0\",\"uuid\":\"00000000-0000-0000-0000-000000000000\"},\"enable\":1,\"nsid\":1}],\"nqn\":\"testnqn\"}]}";

// Two more trees: a port whose transport type isn't set, with groups; subsystems, hosts and
// namespaces that are given out of order, with no path, with an identifier in capitals.
pub const PORT_UNSET: &str =
    "{\"ports\":[{\"portid\":\"2\",\"addr\":{\"trtype\":\"\",\"trsvcid\":4420},\"ana_groups\":[{\"grpid\":9,\"ana\":{\"state\":\"non-optimized\"}},{\"grpid\":3}]},{\"portid\":1}]}";

pub const PORT_UNSET_SAVED: &str =
    "{\"hosts\":[],\"ports\":[{\"addr\":{\"adrfam\":\"\",\"traddr\":\"\",\"treq\":\"not specified\",\"trsvcid\":\"\"},\"ana_groups\":[{\"ana\":{\"state\":\"optimized\"},\"grpid\":1}],\"portid\":1,\"referrals\":[],\"subsystems\":[]},{\"addr\":{\"adrfam\":\"\",\"traddr\":\"\",\"treq\":\"not specified\",\"trsvcid\":\"4420\"},\"ana_groups\":[{\"ana\":{\"state\":\"optimized\"},\"grpid\":1},{\"ana\":{\"state\":\"inaccessible\"},\"grpid\":3},{\"ana\":{\"state\":\"non-optimized\"},\"grpid\":9}],\"portid\":2,\"referrals\":[],\"subsystems\":[]}],\"subsystems\":[]}";

pub const UNORDERED: &str =
    "{\"subsystems\":[{\"nqn\":\"b\",\"attr\":{\"allow_any_host\":1},\"namespaces\":[{\"nsid\":20},{\"nsid\":3,\"ana\":{\"grpid\":2},\"device\":{\"uuid\":\"EF90689C-6C46-D44C-89C1-4067801309A8\"}}]},{\"nqn\":\"B\",\"allowed_hosts\":[\"z\",\"a\"]}],\"hosts\":[{\"nqn\":\"z\"},{\"nqn\":\"a\"}]}";

pub const UNORDERED_SAVED: &str =
    "{\"hosts\":[{\"nqn\":\"a\"},{\"nqn\":\"z\"}],\"ports\":[],\"subsystems\":[{\"allowed_hosts\":[\"a\",\"z\"],\"attr\":{\"allow_any_host\":\"0\",\"model\":\"Linux\",\"serial\":\"00000000000000000001\"},\"namespaces\":[],\"nqn\":\"B\"},{\"allowed_hosts\":[],\"attr\":{\"allow_any_host\":\"1\",\"model\":\"Linux\",\"serial\":\"00000000000000000001\"},\"namespaces\":[{\"ana_grpid\":2,\"device\":{\"nguid\":\"00000000-0000-0000-0000-000000000000\",\"uuid\":\"ef90689c-6c46-d44c-89c1-4067801309a8\"},\"enable\":0,\"nsid\":3},{\"ana_grpid\":1,\"device\":{\"nguid\":\"00000000-0000-0000-0000-000000000000\",\"uuid\":\"00000000-0000-0000-0000-000000000000\"},\"enable\":0,\"nsid\":20}],\"nqn\":\"b\"}]}";

pub const SAVES: &[(&str, &str)] = &[
    ("{}", "{\"hosts\":[],\"ports\":[],\"subsystems\":[]}"),
    (EXAMPLE, SAVED),
    (PORT_UNSET, PORT_UNSET_SAVED),
    (UNORDERED, UNORDERED_SAVED),
];

// Texts whose edits are refused: the number of the first refused one, from 1, and its errno.
pub const REFUSED: &[(&str, usize, &str)] = &[
    ("{\"hosts\":[{\"nqn\":\"a\"},{\"nqn\":\"a\"}]}", 2, "EEXIST"),
    (
        "{\"subsystems\":[{\"nqn\":\"s\",\"namespaces\":[{\"nsid\":1,\"device\":{\"path\":\"/dev/none\"},\"enable\":1}]}]}",
        4,
        "ENOENT",
    ),
    (
        "{\"subsystems\":[{\"nqn\":\"s\",\"namespaces\":[{\"nsid\":1,\"enable\":1}]}]}",
        3,
        "ENOENT",
    ),
    (
        "{\"subsystems\":[{\"nqn\":\"s\"}],\"ports\":[{\"portid\":1,\"addr\":{\"trtype\":\"tcp\"},\"subsystems\":[\"s\"]}]}",
        4,
        "EINVAL",
    ),
    (
        "{\"subsystems\":[{\"nqn\":\"s\"}],\"ports\":[{\"portid\":1,\"addr\":{\"trtype\":\"tcp\"}}]}",
        0,
        "ok",
    ),
];

// The example's tree while its namespace drains.
pub const DRAINING_SAVED: &str =
    "{\"hosts\":[{\"nqn\":\"hostnqn\"}],\"ports\":[{\"addr\":{\"adrfam\":\"\",\"traddr\":\"\",\"treq\":\"not specified\",\"trsvcid\":\"\",\"trtype\":\"loop\"},\"ana_groups\":[{\"ana\":{\"state\":\"optimized\"},\"grpid\":1}],\"portid\":1,\"referrals\":[],\"subsystems\":[\"testnqn\"]}],\"subsystems\":[{\"allowed_hosts\":[\"hostnqn\"],\"attr\":{\"allow_any_host\":\"0\",\"model\":\"Linux\",\"serial\":\"5aefdbbc0a7be8e7\"},\"namespaces\":[{\"ana_grpid\":1,\"device\":{\"nguid\":\"ef90689c-6c46-d44c-89c1-4067801309a8\",\"path\":\"/dev/ram0\",\"uuid\":\"00000000-0000-0000-0000-000000000000\"},\"enable\":0,\"nsid\":1}],\"nqn\":\"testnqn\"}]}";
