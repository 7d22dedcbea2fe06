// The places of all records and lines, in order.
ghost use Rattle.std.specs.Prelude.{◌≡◌, ◌++◌, ◌<◌, ◌^◌, IfOk, length};
ghost use Rattle.std.specs.List.Sorted.{IsNonDecreasing, IsPermutation};
ghost use Rattle.check_records.specs.Seats.{place_of_line};
ghost use Rattle.run_check.specs.Pieces.{line_places, record_places, response_places};

use check_records::Responses;
use journal_text::JournalLine;
use response_files::Record;
use std::alloc::{AllocError, Global};

// The place of a line.
pub(crate) fn place_of_line(line: &JournalLine) -> u32
    ensures { result ≡ place_of_line line.now }
{
    match line {
        JournalLine::Edit { place, .. } | JournalLine::Done { place, .. } => *place,
    }
}

// The places of a journal's lines.
fn line_places(alloc: Global, lines: &[JournalLine]) -> Result<Vec<u32>, AllocError>
    ensures { IfOk result (λ v. v.items ≡ line_places lines.now) }
{
    let mut places = Vec::new(alloc);
    for line in lines {
        places.push(place_of_line(line))?;
    }
    Ok(places)
}

// Appends the places of a file's records.
fn push_places(places: &mut Vec<u32>, records: &[Record]) -> Result<(), AllocError>
    ensures { IfOk result (λ u. places.new.items ≡ places.old.items ++ record_places records.now) }
{
    for record in records {
        places.push(record.head.place)?;
    }
    Ok(())
}

// The places of all lines and records, as they stand.
fn all_places(
    alloc: Global,
    responses: &[Responses],
    lines: &[JournalLine],
) -> Result<Vec<u32>, AllocError>
    ensures { IfOk result (λ v. v.items ≡ line_places lines.now
        ++ response_places responses.now) }
{
    let mut places = line_places(alloc, lines)?;
    for r in responses {
        push_places(&mut places, &r.records)?;
    }
    Ok(places)
}

/// The places of all lines and records in ascending order. There are fewer than 2^32: as many as a
/// number counts.
pub(crate) fn sorted_places(
    alloc: Global,
    responses: &[Responses],
    lines: &[JournalLine],
) -> Result<Vec<u32>, AllocError>
    ensures all { IfOk result (λ v. IsPermutation (line_places lines.now
        ++ response_places responses.now) v.items) }
    ensures sorted { IfOk result (λ v. IsNonDecreasing v.items) }
    ensures few { IfOk result (λ v. length v.items < 2 ^ 32) }
{
    let mut places = all_places(alloc, responses, lines)?;
    if u32::try_from(places.len()).is_err() {
        return Err(AllocError);
    }
    places.sort()?;
    Ok(places)
}
