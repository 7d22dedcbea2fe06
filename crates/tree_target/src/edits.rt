ghost use Rattle.std.specs.Prelude.{◌≡◌};
ghost use Rattle.tree_target.specs.Edits.{disables, disables_of};

use configfs_rows::Nqn;
use configfs_tree::{Attr, Folder, FolderEdit};
use link_rules::Edit;

/// A namespace, by the NQN of its subsystem and its NSID.
#[derive(Drop)]
pub struct Space {
    pub sub: Nqn,
    pub nsid: u32,
}

fn disabled_by(folder: &Folder, attr: Attr, value: &[u8]) -> Option<Space>
    ensures { result ≡ disables_of folder.now attr value.now }
{
    match folder {
        Folder::Namespace(sub, nsid) => {
            if !matches!(attr, Attr::Enable) {
                return None;
            }
            if value != b"0".as_slice() {
                return None;
            }
            Some(Space {
                sub: sub.copied(),
                nsid: *nsid,
            })
        }
        Folder::Host(_) | Folder::Subsystem(_) | Folder::Port(_) | Folder::AnaGroup(_, _) => None,
    }
}

/// The namespace whose `enable` an edit sets to `0`, if it is such an edit. Where that namespace is
/// enabled the edit begins its drain. Takes no memory.
pub fn disables(e: &Edit) -> Option<Space>
    ensures { result ≡ disables e.now }
{
    match e {
        Edit::Folder(FolderEdit::Set(folder, attr, value)) => {
            disabled_by(folder, *attr, value.as_bytes())
        }
        Edit::Folder(FolderEdit::Mkdir(_)) | Edit::Folder(FolderEdit::Rmdir(_)) | Edit::Link(_) =>
            None,
    }
}
