//! What a crash leaves of a run.

ghost use Rattle.mm_durable.specs.Laws.{EachMomentIsPrefix, EachMomentIsSafe, RecoversPrefix, HoldsAcknowledged, ServesItems, HoldsGroups, StandsNow, ServedIsSafe};
ghost use Rattle.mm_durable.specs.Durable.{IsOrderly};

use crate::durable::Durable;
use crate::log::Log;
use mm_outside::Disk;

/// Of a run whose fact holds, where the disk tells and no torn record passes its check by chance: a crash at any moment leaves the
/// journal without a gap, the lsn file unreadable or with the marked number or the one whose marking has begun and hasn't answered Ok by
/// then, and each data file as it was at the floor but for what the sections above it made and wrote. So its recovery has the files as
/// after the sections that were synced before that moment, or after one more, of all databases alike; however often recovery is stopped by
/// a crash, the next one has the same. A section whose receipt is of an earlier moment is among them. The call does nothing.
pub fn crashes_leave_a_prefix(log: &Log)
    ensures each { EachMomentIsPrefix log.now }
    ensures recovers { RecoversPrefix log.now }
    ensures acknowledged { HoldsAcknowledged log.now }
{
    let _ = log.names();
}

/// Of a durable side whose fact holds, also of one that a stopped call has ended, where the disk tells and no torn record passes its check by
/// chance: a crash at any moment leaves journal, lsn file and data files as `crashes_leave_a_prefix` says, and what it leaves is recovered to
/// the files that the items of the groups give, up to one group that is the same for all databases: the last that was synced before that
/// moment, or the one after it. However often recovery is stopped by a crash, the next one has the same. A group whose receipt is of an
/// earlier moment is among them. The call does nothing.
pub fn crashes_leave_items<D: Disk>(durable: &Durable<D>)
    ensures safe { IsOrderly durable.now → ServedIsSafe durable.now }
    ensures each { EachMomentIsSafe durable.now }
    ensures items { ServesItems durable.now }
    ensures acknowledged { HoldsGroups durable.now }
{
    let _ = durable.ended();
}

/// Of a durable side whose fact holds, where the disk tells: what stands on the disk. Each database's files read the image of its items up
/// to the last section that was flushed there, the lsn file holds the marked number, and a cleared journal has no file. The call does
/// nothing.
pub fn files_read_flushed_items<D: Disk>(durable: &Durable<D>)
    requires { IsOrderly durable.now }
    ensures { StandsNow durable.now }
{
    let _ = durable.ended();
}
