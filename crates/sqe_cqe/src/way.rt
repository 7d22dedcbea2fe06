/// Which way the data of a command go: none, to the controller, to the host, or both (NVMe Base 2.0, bits 1:0 of an
/// opcode).
#[derive(Clone, Copy, Debug, PartialEq, Eq)]
pub enum Direction {
    Nothing,
    ToController,
    ToHost,
    Both,
}
