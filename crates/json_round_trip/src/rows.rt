// Texts in nvmetcli's JSON, and what is saved of the trees that they make. The texts are worked
// from the format.

// Subsystems that are given out of order, so that their positions aren't in the order of their
// names: one allows any host, the other two hosts and has its namespace enabled.
pub const TWO: &str =
    "{\"subsystems\":[{\"nqn\":\"b\",\"attr\":{\"allow_any_host\":1},\"namespaces\":[{\"nsid\":20},{\"nsid\":3,\"ana\":{\"grpid\":2},\"device\":{\"path\":\"/dev/ram1\",\"uuid\":\"EF90689C-6C46-D44C-89C1-4067801309A8\"}}]},{\"nqn\":\"a\",\"allowed_hosts\":[\"z\",\"h\"],\"namespaces\":[{\"nsid\":1,\"device\":{\"path\":\"/dev/ram1\"},\"enable\":1}]}],\"hosts\":[{\"nqn\":\"z\"},{\"nqn\":\"h\"}]}";

pub const TWO_SAVED: &str =
    "{\"hosts\":[{\"nqn\":\"h\"},{\"nqn\":\"z\"}],\"ports\":[],\"subsystems\":[{\"allowed_hosts\":[\"h\",\"z\"],\"attr\":{\"allow_any_host\":\"0\",\"model\":\"Linux\",\"serial\":\"00000000000000000001\"},\"namespaces\":[{\"ana_grpid\":1,\"device\":{\"nguid\":\"00000000-0000-0000-0000-000000000000\",\"path\":\"/dev/ram1\",\"uuid\":\"00000000-0000-0000-0000-000000000000\"},\"enable\":1,\"nsid\":1}],\"nqn\":\"a\"},{\"allowed_hosts\":[],\"attr\":{\"allow_any_host\":\"1\",\"model\":\"Linux\",\"serial\":\"00000000000000000001\"},\"namespaces\":[{\"ana_grpid\":2,\"device\":{\"nguid\":\"00000000-0000-0000-0000-000000000000\",\"path\":\"/dev/ram1\",\"uuid\":\"ef90689c-6c46-d44c-89c1-4067801309a8\"},\"enable\":0,\"nsid\":3},{\"ana_grpid\":1,\"device\":{\"nguid\":\"00000000-0000-0000-0000-000000000000\",\"uuid\":\"00000000-0000-0000-0000-000000000000\"},\"enable\":0,\"nsid\":20}],\"nqn\":\"b\"}]}";

// The same with the namespace of `a` disabled.
pub const TWO_OFF_SAVED: &str =
    "{\"hosts\":[{\"nqn\":\"h\"},{\"nqn\":\"z\"}],\"ports\":[],\"subsystems\":[{\"allowed_hosts\":[\"h\",\"z\"],\"attr\":{\"allow_any_host\":\"0\",\"model\":\"Linux\",\"serial\":\"00000000000000000001\"},\"namespaces\":[{\"ana_grpid\":1,\"device\":{\"nguid\":\"00000000-0000-0000-0000-000000000000\",\"path\":\"/dev/ram1\",\"uuid\":\"00000000-0000-0000-0000-000000000000\"},\"enable\":0,\"nsid\":1}],\"nqn\":\"a\"},{\"allowed_hosts\":[],\"attr\":{\"allow_any_host\":\"1\",\"model\":\"Linux\",\"serial\":\"00000000000000000001\"},\"namespaces\":[{\"ana_grpid\":2,\"device\":{\"nguid\":\"00000000-0000-0000-0000-000000000000\",\"path\":\"/dev/ram1\",\"uuid\":\"ef90689c-6c46-d44c-89c1-4067801309a8\"},\"enable\":0,\"nsid\":3},{\"ana_grpid\":1,\"device\":{\"nguid\":\"00000000-0000-0000-0000-000000000000\",\"uuid\":\"00000000-0000-0000-0000-000000000000\"},\"enable\":0,\"nsid\":20}],\"nqn\":\"b\"}]}";

// Two ports, one with more ANA groups and no transport type, the other with a link.
pub const PORTS: &str =
    "{\"subsystems\":[{\"nqn\":\"s\"}],\"ports\":[{\"portid\":\"2\",\"addr\":{\"trtype\":\"\",\"trsvcid\":4420},\"ana_groups\":[{\"grpid\":9,\"ana\":{\"state\":\"non-optimized\"}},{\"grpid\":3},{\"grpid\":1,\"ana\":{\"state\":\"change\"}}]},{\"portid\":1,\"addr\":{\"trtype\":\"loop\"},\"subsystems\":[\"s\"]}]}";

pub const PORTS_SAVED: &str =
    "{\"hosts\":[],\"ports\":[{\"addr\":{\"adrfam\":\"\",\"traddr\":\"\",\"treq\":\"not specified\",\"trsvcid\":\"\",\"trtype\":\"loop\"},\"ana_groups\":[{\"ana\":{\"state\":\"optimized\"},\"grpid\":1}],\"portid\":1,\"referrals\":[],\"subsystems\":[\"s\"]},{\"addr\":{\"adrfam\":\"\",\"traddr\":\"\",\"treq\":\"not specified\",\"trsvcid\":\"4420\"},\"ana_groups\":[{\"ana\":{\"state\":\"change\"},\"grpid\":1},{\"ana\":{\"state\":\"inaccessible\"},\"grpid\":3},{\"ana\":{\"state\":\"non-optimized\"},\"grpid\":9}],\"portid\":2,\"referrals\":[],\"subsystems\":[]}],\"subsystems\":[{\"allowed_hosts\":[],\"attr\":{\"allow_any_host\":\"0\",\"model\":\"Linux\",\"serial\":\"00000000000000000001\"},\"namespaces\":[],\"nqn\":\"s\"}]}";

pub const SAVES: &[(&str, &str)] = &[
    ("{}", "{\"hosts\":[],\"ports\":[],\"subsystems\":[]}"),
    (TWO, TWO_SAVED),
    (PORTS, PORTS_SAVED),
];
