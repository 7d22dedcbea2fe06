ghost use Rattle.std.specs.Prelude.{ℕ, List, length};
ghost use Rattle.mem_bdev.specs.Blocks.{Blocks, IsWhole, IsInside, written, zeroed};
ghost use Rattle.mem_bdev.specs.ByBlock.{IsWriteOf, IsZeroOf};

/// A law, with nothing to run: after a write, block i is the piece of the bytes that falls on it where i is in the range,
/// and what it was elsewhere.
pub fn write_by_blocks()
    ensures { (d : Blocks) (lba : ℕ) (bytes : List ℕ) → IsWhole d lba (length bytes) → IsWriteOf d lba bytes (written d lba bytes) }
{}

/// A law, with nothing to run: after a zeroing, block i is zeros where i is in the range, and what it was elsewhere.
pub fn zero_by_blocks()
    ensures { (d : Blocks) (lba count : ℕ) → IsInside d lba count → IsZeroOf d lba count (zeroed d lba count) }
{}
