//! What holds of runs whose servers make their sums over ranges, or begin anew.
ghost use Rattle.tk_run.specs.Keeping.{CheckpointsAccepted};
ghost use Rattle.tk_run.specs.Ranged.{RangedFromOwn};

use tk_checkpoint::{saved_is_sound, saved_reads_back};

/// Servers whose sums over ranges are those over all blocks make the run.
pub fn servers_ranged()
    ensures { RangedFromOwn }
{}

/// A server accepts the checkpoint of as many entries as it has, with as many marks.
pub fn checkpoints_accepted()
    ensures { CheckpointsAccepted }
{
    saved_is_sound();
    saved_reads_back();
}
