// Opcodes and status fields by the standard's names.

/// Opcode of a fabrics command (NVMe over Fabrics 1.1, 3).
pub const FABRICS: u8 = 0x7f;

/// FCTYPE of Property Set (NVMe over Fabrics 1.1, 3.6).
pub const PROPERTY_SET: u8 = 0x00;

/// FCTYPE of Connect (NVMe over Fabrics 1.1, 3.3).
pub const CONNECT: u8 = 0x01;

/// FCTYPE of Property Get (NVMe over Fabrics 1.1, 3.5).
pub const PROPERTY_GET: u8 = 0x04;

/// Opcode of Flush (NVMe Base 2.0, Flush command).
pub const FLUSH: u8 = 0x00;

/// Opcode of Write (NVM Command Set 1.0, 3.2.6).
pub const WRITE: u8 = 0x01;

/// Opcode of Read (NVM Command Set 1.0, 3.2.4).
pub const READ: u8 = 0x02;

/// Opcode of Write Zeroes (NVM Command Set 1.0, 3.2.8).
pub const WRITE_ZEROES: u8 = 0x08;

/// Flags of a command whose data are told by an SGL, and that isn't fused: PSDT 01b, FUSE 00b.
pub const SGL: u8 = 0x40;

/// Status field of a command that was done.
pub const SUCCESS: u16 = 0;

/// Status field Invalid Command Opcode, with Do Not Retry.
pub const INVALID_OPCODE: u16 = 0x8002;

/// Status field Invalid Field in Command, with Do Not Retry.
pub const INVALID_FIELD: u16 = 0x8004;

/// Status field Invalid Namespace or Format, with Do Not Retry.
pub const INVALID_NAMESPACE: u16 = 0x8016;

/// Status field Command Sequence Error, with Do Not Retry.
pub const COMMAND_SEQUENCE_ERROR: u16 = 0x8018;

/// Status field Data SGL Length Invalid, with Do Not Retry.
pub const DATA_SGL_LENGTH_INVALID: u16 = 0x801e;

/// Status field LBA Out of Range, with Do Not Retry.
pub const LBA_OUT_OF_RANGE: u16 = 0x8100;

/// Status field Connect Incompatible Format, with Do Not Retry.
pub const CONNECT_INCOMPATIBLE_FORMAT: u16 = 0x8300;

/// Status field Connect Invalid Parameters, with Do Not Retry.
pub const CONNECT_INVALID_PARAMETERS: u16 = 0x8304;

/// Status field Connect Invalid Host, with Do Not Retry.
pub const CONNECT_INVALID_HOST: u16 = 0x8308;

/// Status field Internal Path Error.
pub const INTERNAL_PATH_ERROR: u16 = 0x0600;

/// Status field Asymmetric Access Persistent Loss.
pub const ANA_PERSISTENT_LOSS: u16 = 0x0602;

/// Status field Asymmetric Access Inaccessible.
pub const ANA_INACCESSIBLE: u16 = 0x0604;

/// Status field Asymmetric Access Transition.
pub const ANA_TRANSITION: u16 = 0x0606;
