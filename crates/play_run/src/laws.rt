//! Laws of plays. Each is the contract of an empty function, so that it is proved.

ghost use Rattle.play_run.specs.Play.{QuietJournals, QuietPlays, QuietRuns, SteadyPlays};

use outside::disk::Disk;
use outside::objects::Objects;

/// Where no tier's count and none of a label's rose, no line of a run answers a tier's fault or a wait.
pub fn quiet_runs<D: Disk, O: Objects>()
    ensures { QuietRuns D.Disk O.Objects O.Reader.ObjectRead O.Writer.ObjectWrite }
{}

/// Over media that tell that they are steady, the cause of each fault in the lines of a play is a tier's own count, of
/// failures or of misses, or, of a fault of the journal, an area's own count or a fuse that is too short; and no line is
/// that the reader isn't ready.
pub fn steady_plays<D: Disk, O: Objects>()
    ensures { SteadyPlays D.Disk O.Objects O.Reader.ObjectRead O.Writer.ObjectWrite }
{}

/// Where such tiers tell and hold no object, the areas are fresh, and the sum of the tiers' counts is the same when they
/// are given back, no line of the play answers a tier's fault.
pub fn quiet_plays<D: Disk, O: Objects>()
    ensures { QuietPlays D.Disk O.Objects O.Reader.ObjectRead O.Writer.ObjectWrite }
{}

/// Over fresh areas, where such tiers hold no object, no event of the script sets a fuse, and the sum of the areas' own
/// counts is the same when they are given back, no line of the play answers a fault of the journal.
pub fn quiet_journals<D: Disk, O: Objects>()
    ensures { QuietJournals D.Disk O.Objects O.Reader.ObjectRead O.Writer.ObjectWrite }
{}
