ghost use Rattle.disk_extents.specs.Extents.{EdgesAreByNumber, ExtentsAreTheDisk};
ghost use Rattle.disk_extents.specs.Together.{PartsAreTheJob, TouchedAreThose};

/// A law, with nothing to run: an extent has the blocks that the rule gives it: block i lies in
/// extent i div E, E being an eighth of the disk's blocks or one, and what is past seven of these
/// lies in the last.
pub fn edges_are_by_number()
    ensures { EdgesAreByNumber }
{}

/// A law, with nothing to run: the extents' blocks, one extent after the other, are the disk's.
pub fn extents_are_the_disk()
    ensures { ExtentsAreTheDisk }
{}

/// A law, with nothing to run: the extents that a job touches are those in which one of its
/// blocks lies.
pub fn touched_are_those()
    ensures { TouchedAreThose }
{}

/// A law, with nothing to run: the parts of a job on the extents that it touches, in rising
/// order, together are the job on the disk, and an extent that it doesn't touch stays.
pub fn parts_are_the_job()
    ensures { PartsAreTheJob }
{}
