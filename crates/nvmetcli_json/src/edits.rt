// The edits of a configuration, as a list that grows.
use configfs_tree::{Attr, Folder, FolderEdit};
use link_rules::Edit;
use mem_bdev::Name;
use std::alloc::{AllocError, AllocFailed, Global};
use std::marker::Model;

/// Edits in their order. Contracts see the list.
#[derive(Drop)]
pub struct Edits {
    edits: Vec<Edit>,
}

impl Model for Edits {
    ghost use Rattle.std.specs.Prelude.{List};
    ghost use Rattle.link_rules.specs.declared.edits.Edit.{Edit};

    ghost Value = { List Edit };

    ghost view = { λ e. e.edits.items };
}

impl Edits {
    ghost use Rattle.std.specs.Prelude.{◌≡◌, ◌∷◌, ◌++◌, [], OnOk, true};
    ghost use Rattle.nvmetcli_json.specs.Edits.{made, set_some};

    // No edit. Takes no memory.
    pub(crate) fn new(alloc: Global) -> Self
        ensures { result ≡ [] }
    {
        Edits {
            edits: Vec::new(alloc),
        }
    }

    // Puts one more at the end.
    pub(crate) fn push(&mut self, edit: Edit) -> Result<(), AllocFailed<Edit>>
        ensures { OnOk result (self.new ≡ self.old ++ edit ∷ []) }
    {
        self.edits.push(edit)?;
        Ok(())
    }

    // Puts these at the end.
    pub(crate) fn append(&mut self, mut more: Edits) -> Result<(), AllocError>
        ensures { OnOk result (self.new ≡ self.old ++ more) }
    {
        self.edits.append(&mut more.edits)?;
        Ok(())
    }

    // The edit that makes a folder.
    pub(crate) fn make(&mut self, folder: Folder) -> Result<(), AllocError>
        ensures { OnOk result (self.new ≡ self.old ++ made folder ∷ []) }
    {
        self.push(Edit::Folder(FolderEdit::Mkdir(folder)))?;
        Ok(())
    }

    // The edit that writes a value, where one is given.
    pub(crate) fn set(
        &mut self,
        folder: Folder,
        attr: Attr,
        value: Option<Name>,
    ) -> Result<(), AllocError>
        ensures { OnOk result (self.new ≡ self.old ++ set_some folder attr value) }
    {
        let Some(value) = value else {
            return Ok(());
        };
        self.push(Edit::Folder(FolderEdit::Set(folder, attr, value)))?;
        Ok(())
    }

    /// The edits, the first one first.
    pub fn as_slice(&self) -> &[Edit]
        ensures { result.now ≡ self.now }
    {
        &self.edits
    }
}
