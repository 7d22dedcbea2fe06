ghost use Rattle.std.specs.Prelude.{◌≡◌, ◌<◌, ℕ, List, length, All};
ghost use Rattle.sqe_cqe.specs.Fields.{IsGapless, StandIn};
ghost use Rattle.sqe_cqe.specs.Connect.{connect_fields, property_fields, ConnectDataAgain};
ghost use Rattle.sqe_cqe.specs.Sqe.{sqe_of, sqe_bytes, sqe_fields};
ghost use Rattle.sqe_cqe.specs.Cqe.{cqe_of, cqe_bytes, cqe_fields};

/// A law, with nothing to run: the fields of a submission entry fill its 64 bytes without a gap, and the bytes that are
/// written of what is read of 64 bytes are those bytes again.
pub fn sqe_bytes_again()
    ensures gapless { (bytes : List ℕ) → IsGapless 0 64 (sqe_fields (sqe_of bytes)) }
    ensures again { (bytes : List ℕ) → length bytes ≡ 64 → All (λ b. b < 256) bytes → sqe_bytes (sqe_of bytes) ≡ bytes }
{}

/// A law, with nothing to run: the fields of a completion fill its 16 bytes without a gap, and the bytes that are written
/// of what is read of 16 bytes are those bytes again.
pub fn cqe_bytes_again()
    ensures gapless { (bytes : List ℕ) → IsGapless 0 16 (cqe_fields (cqe_of bytes)) }
    ensures again { (bytes : List ℕ) → length bytes ≡ 16 → All (λ b. b < 256) bytes → cqe_bytes (cqe_of bytes) ≡ bytes }
{}

/// A law, with nothing to run: the fields that a Connect, a Property Get and a Property Set have in command dwords stand
/// at their offsets in the 64 bytes that the entry is read from.
pub fn fabrics_fields_stand()
    ensures connect { (bytes : List ℕ) → length bytes ≡ 64 → All (λ b. b < 256) bytes → StandIn bytes (connect_fields (sqe_of bytes)) }
    ensures property { (bytes : List ℕ) → length bytes ≡ 64 → All (λ b. b < 256) bytes → StandIn bytes (property_fields (sqe_of bytes)) }
{}

/// A law, with nothing to run: of bytes that are put together of the parts of Connect data, these parts are read.
pub fn connect_data_again()
    ensures { ConnectDataAgain }
{}
