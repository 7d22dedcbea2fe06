use plan_files::Capsule;

/// A capsule file: its bytes, the capsules in them, and how many bytes the responses to them need
/// at most.
#[derive(Drop)]
pub struct CapsuleFile {
    pub bytes: Vec<u8>,
    pub capsules: Vec<Capsule>,
    pub room: u64,
}
