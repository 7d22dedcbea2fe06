/// The most hosts that a tree holds.
pub const MAX_HOSTS: usize = 64;

/// The most subsystems that a tree holds. Positions of subsystems are below it.
pub const MAX_SUBSYSTEMS: usize = 16;

/// The most ports that a tree holds. Positions of ports are below it.
pub const MAX_PORTS: usize = 8;

/// The highest ANA group identifier; the lowest is 1. Pages that list groups use the same limit.
pub const MAX_ANA_GROUPS: u32 = 128;

/// The most bytes of an NQN.
pub const NQN_LEN: usize = 223;

/// The most bytes of a serial number: the length of its field in Identify Controller.
pub const SERIAL_LEN: usize = 20;

/// The most bytes of a model number: the length of its field in Identify Controller.
pub const MODEL_LEN: usize = 40;

/// The most controllers at a time. As many may be attached at one position.
pub const MAX_CONTROLLERS: u8 = 31;

/// The most disks of a plan. Numbers of disks are below it.
pub const MAX_DISKS: usize = 64;

/// The most bytes of a device path.
pub const PATH_LEN: usize = 255;

/// The most bytes of a transport address.
pub const TRADDR_LEN: usize = 255;

/// The most bytes of a transport service identifier.
pub const TRSVCID_LEN: usize = 31;
