//! What `stat` shows of a node.

ghost use Rattle.std.specs.Prelude.{◌≡◌, ◌≤◌, ◌*◌, true};
ghost use Rattle.fs_model.specs.declared.event.Event.{Event};
ghost use Rattle.fs_model.specs.NamesOutcomes.{state_by_stored};
ghost use Rattle.inode_tree.specs.Rows.{file_in_row};
ghost use Rattle.cluster_core.specs.Causes.{IsCaused};
ghost use Rattle.cluster_core.specs.Shown.{first_has, lacks_here, state_here};
ghost use Rattle.cluster_core.specs.Goes.{Steps};

use crate::cluster::Core;
use fs_model::block::block_count;
use fs_model::numbers::{Actor, BlockNo, FileId};
use fs_model::path::Path;
use fs_model::reply::{FileState, Refusal, Reply, Stored};
use inode_tree::row::{Row, Walk};
use outside::disk::Disk;
use outside::objects::Objects;

/// The state of a done file, by how it stands to its under-store and whether a block has no live copy.
fn state_by(stored: Stored, lost: bool) -> FileState
    ensures { result ≡ state_by_stored stored lost }
{
    match stored {
        Stored::Yes => FileState::Persisted,
        Stored::No => {
            if lost {
                return FileState::Lost;
            }
            FileState::NotPersisted
        }
        Stored::Wanted => {
            if lost {
                return FileState::Lost;
            }
            FileState::ToBePersisted
        }
    }
}

impl<D: Disk, O: Objects> Core<D, O, O::Reader, O::Writer> {
    /// Whether the first worker runs and has the block: until scripts start workers, no other has a live copy.
    fn first_has(&self, file: FileId, block: BlockNo) -> bool
        ensures { result ≡ first_has self.now.workers.items file block }
    {
        match self.workers.get(0) {
            None => false,
            Some(node) => node.running && node.book.row(file, block).is_some(),
        }
    }

    /// Whether some block of a file of `len` bytes has no live copy.
    fn lacks_some(&self, file: FileId, len: u64) -> bool
        requires { len ≤ 65536 * self.now.block }
        ensures { result ≡ lacks_here self.now.workers.items self.now.block file len }
    {
        for block in 0..block_count(len, self.block) {
            if !self.first_has(file, BlockNo(block)) {
                return true;
            }
        }
        false
    }

    /// The state of a file. A done one has at most 65,536 blocks.
    fn state_of(&self, row: Row) -> FileState
        ensures { (row.done ≡ true → row.len ≤ 65536 * self.now.block) → result ≡ state_here self.now.workers.items self.now.block (file_in_row row) }
    {
        if !row.done {
            return FileState::Incomplete;
        }
        let len = row.len.min(65_536 * u64::from(self.block));
        state_by(row.stored, self.lacks_some(FileId(row.id), len))
    }

    /// `stat`: what is at the path.
    pub(crate) fn stat(&self, actor: Actor, path: &Path) -> Reply
        ensures steps { Steps D.Disk O.Objects O.Reader.ObjectRead O.Writer.ObjectWrite self.now self.now actor (Event.Stat path.now) result }
        ensures cause { IsCaused D.Disk O.Objects O.Reader.ObjectRead O.Writer.ObjectWrite self.now self.now actor (Event.Stat path.now) result }
    {
        if self.master.is_stopped() {
            return Reply::Refused(Refusal::Stopped);
        }
        match self.master.names().walk(path) {
            Walk::Absent => Reply::Refused(Refusal::NotFound),
            Walk::Blocked => Reply::Refused(Refusal::NotDirectory),
            Walk::Found(row) => {
                if row.dir {
                    return Reply::StatDir;
                }
                Reply::StatFile {
                    id: FileId(row.id),
                    len: row.len,
                    state: self.state_of(row),
                    pinned: row.pinned,
                }
            }
        }
    }
}
