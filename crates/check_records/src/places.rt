// The places of a run.
ghost use Rattle.std.specs.Prelude.{◌≡◌, ◌<◌, ◌≤◌, ◌^◌, length, IfOk, MatchOption, OnOk};
ghost use Rattle.std.specs.List.Sorted.{IsNonDecreasing};
ghost use Rattle.run_verdicts.specs.Places.{ArePlaces, IsBadPlace, IsLowest};

/// The lowest bad place of places that ascend: it is missing below `n`, doubled, or not below `n`.
pub fn lowest_bad(places: &[u32], n: u32) -> Option<u32>
    requires sorted { IsNonDecreasing places.now }
    requires few { length places.now < 2 ^ 32 }
    ensures { MatchOption result (ArePlaces n places.now)
        (λ p. IsLowest (IsBadPlace n places.now) p) }
{
    for (index, place) in places.iter().enumerate() {
        let index = index as u32;
        let place = *place;
        if place < index {
            return Some(place);
        }
        if place > index {
            return Some(if index < n { index } else { place });
        }
        if place >= n {
            return Some(place);
        }
    }
    let count = places.len() as u32;
    if count < n { Some(count) } else { None }
}
