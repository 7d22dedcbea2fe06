// Configurations, and what is shown of them.

/// One that nvmetcli saved, with four members that are passed over.
pub const EXAMPLE: &str =
    "{\"hosts\":[{\"nqn\":\"hostnqn\"}],\"ports\":[{\"addr\":{\"adrfam\":\"\",\"traddr\":\"\",\"treq\":\"not specified\",\"trsvcid\":\"\",\"trtype\":\"loop\"},\"param\":{\"inline_data_size\":\"16384\"},\"portid\":1,\"referrals\":[],\"subsystems\":[\"testnqn\"]}],\"subsystems\":[{\"allowed_hosts\":[\"hostnqn\"],\"attr\":{\"allow_any_host\":\"0\",\"cntlid_max\":\"65519\",\"cntlid_min\":\"1\",\"model\":\"Linux\",\"serial\":\"5aefdbbc0a7be8e7\",\"version\":\"1.3\"},\"namespaces\":[{\"ana_grpid\":1,\"device\":{\"nguid\":\"ef90689c-6c46-d44c-89c1-4067801309a8\",\"path\":\"/dev/ram0\"},\"enable\":1,\"nsid\":1}],\"nqn\":\"testnqn\"}]}";

/// What is shown of it.
pub const SHOWN: &str =
    "{\"hosts\":[{\"nqn\":\"hostnqn\"}],\"ports\":[{\"addr\":{\"adrfam\":\"\",\"traddr\":\"\",\"treq\":\"not specified\",\"trsvcid\":\"\",\"trtype\":\"loop\"},\"ana_groups\":[{\"ana\":{\"state\":\"optimized\"},\"grpid\":1}],\"portid\":1,\"referrals\":[],\"subsystems\":[\"testnqn\"]}],\"subsystems\":[{\"allowed_hosts\":[\"hostnqn\"],\"attr\":{\"allow_any_host\":\"0\",\"model\":\"Linux\",\"serial\":\"5aefdbbc0a7be8e7\"},\"namespaces\":[{\"ana_grpid\":1,\"device\":{\"nguid\":\"ef90689c-6c46-d44c-89c1-4067801309a8\",\"path\":\"/dev/ram0\",\"uuid\":\"00000000-0000-0000-0000-000000000000\"},\"enable\":1,\"nsid\":1}],\"nqn\":\"testnqn\"}]}\n";

/// The same with a second port, whose transport type is the empty text.
pub const TWO_PORTS: &str =
    "{\"hosts\":[{\"nqn\":\"hostnqn\"}],\"ports\":[{\"addr\":{\"adrfam\":\"\",\"traddr\":\"\",\"treq\":\"not specified\",\"trsvcid\":\"\",\"trtype\":\"loop\"},\"ana_groups\":[{\"ana\":{\"state\":\"optimized\"},\"grpid\":1}],\"portid\":1,\"referrals\":[],\"subsystems\":[\"testnqn\"]},{\"addr\":{\"trtype\":\"\"},\"portid\":2}],\"subsystems\":[{\"allowed_hosts\":[\"hostnqn\"],\"attr\":{\"allow_any_host\":\"0\",\"model\":\"Linux\",\"serial\":\"5aefdbbc0a7be8e7\"},\"namespaces\":[{\"ana_grpid\":1,\"device\":{\"nguid\":\"ef90689c-6c46-d44c-89c1-4067801309a8\",\"path\":\"/dev/ram0\",\"uuid\":\"00000000-0000-0000-0000-000000000000\"},\"enable\":1,\"nsid\":1}],\"nqn\":\"testnqn\"}]}";

pub const TWO_PORTS_SHOWN: &str =
    "{\"hosts\":[{\"nqn\":\"hostnqn\"}],\"ports\":[{\"addr\":{\"adrfam\":\"\",\"traddr\":\"\",\"treq\":\"not specified\",\"trsvcid\":\"\",\"trtype\":\"loop\"},\"ana_groups\":[{\"ana\":{\"state\":\"optimized\"},\"grpid\":1}],\"portid\":1,\"referrals\":[],\"subsystems\":[\"testnqn\"]},{\"addr\":{\"adrfam\":\"\",\"traddr\":\"\",\"treq\":\"not specified\",\"trsvcid\":\"\"},\"ana_groups\":[{\"ana\":{\"state\":\"optimized\"},\"grpid\":1}],\"portid\":2,\"referrals\":[],\"subsystems\":[]}],\"subsystems\":[{\"allowed_hosts\":[\"hostnqn\"],\"attr\":{\"allow_any_host\":\"0\",\"model\":\"Linux\",\"serial\":\"5aefdbbc0a7be8e7\"},\"namespaces\":[{\"ana_grpid\":1,\"device\":{\"nguid\":\"ef90689c-6c46-d44c-89c1-4067801309a8\",\"path\":\"/dev/ram0\",\"uuid\":\"00000000-0000-0000-0000-000000000000\"},\"enable\":1,\"nsid\":1}],\"nqn\":\"testnqn\"}]}\n";

/// What is shown of a simple plan on `/dev/ram0`.
pub const SIMPLE_SHOWN: &str =
    "{\"hosts\":[],\"ports\":[{\"addr\":{\"adrfam\":\"\",\"traddr\":\"\",\"treq\":\"not specified\",\"trsvcid\":\"\",\"trtype\":\"loop\"},\"ana_groups\":[{\"ana\":{\"state\":\"optimized\"},\"grpid\":1}],\"portid\":1,\"referrals\":[],\"subsystems\":[\"nqn.2014-08.org.nvmexpress:simple\"]}],\"subsystems\":[{\"allowed_hosts\":[],\"attr\":{\"allow_any_host\":\"1\",\"model\":\"Linux\",\"serial\":\"00000000000000000001\"},\"namespaces\":[{\"ana_grpid\":1,\"device\":{\"nguid\":\"00000000-0000-0000-0000-000000000000\",\"path\":\"/dev/ram0\",\"uuid\":\"00000000-0000-0000-0000-000000000000\"},\"enable\":1,\"nsid\":1}],\"nqn\":\"nqn.2014-08.org.nvmexpress:simple\"}]}\n";

/// What is shown of an empty configuration.
pub const EMPTY_SHOWN: &str = "{\"hosts\":[],\"ports\":[],\"subsystems\":[]}\n";
