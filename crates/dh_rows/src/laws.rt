//! Laws of the definitions of calls, for every store.
ghost use Rattle.sqlite.specs.Held.{Held};
ghost use Rattle.sqlite.specs.Steps.{over_memory};
ghost use Rattle.sqlite_trees.specs.declared.memory.MemStore.{MemStore};
ghost use Rattle.dh_rows.specs.Calls.{IsBlamed, IsHonest, LeavesCommitted, whole};

use sqlite::Alter;

/// A crash of an honest store leaves what was committed last, and nothing else.
pub fn crash_law<S: Alter>()
    ensures { (h : Held S) → IsHonest S.Store h → LeavesCommitted S.Store whole h }
{}

/// A store in memory is honest at any time.
pub fn memory_law()
    ensures { (h : Held MemStore) → IsHonest over_memory h }
{}

/// A store in memory is never to blame: it counts no fault, and nothing shuts it.
pub fn blameless_law()
    ensures { (old new : Held MemStore) → ¬ IsBlamed over_memory old new }
{}
