ghost use Rattle.response_files.specs.Responses.{MalformedIsNoRecord};

/// A law, with nothing to run: bytes are malformed, for one of the reasons that a record can have,
/// exactly where they don't begin with the print of a record.
pub fn malformed_bytes_begin_no_record()
    ensures { MalformedIsNoRecord }
{}
