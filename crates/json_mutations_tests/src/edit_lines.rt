// What `load` tells, as the slow reader spells it.
use crate::texts::Text;
use configfs_tree::{Attr, Folder, FolderEdit};
use nvmetcli_json::{Edit, JsonError, LinkEdit, Loaded};
use std::alloc::Global;
use std::process::Abort;

fn put_folder(rt: &impl Abort, out: &mut Text, folder: &Folder) {
    match folder {
        Folder::Host(nqn) => {
            out.put(rt, b"hosts/");
            out.put(rt, nqn.as_bytes());
        }
        Folder::Subsystem(nqn) => {
            out.put(rt, b"subsystems/");
            out.put(rt, nqn.as_bytes());
        }
        Folder::Namespace(nqn, nsid) => {
            out.put(rt, b"subsystems/");
            out.put(rt, nqn.as_bytes());
            out.put(rt, b"/namespaces/");
            out.number(rt, u64::from(*nsid));
        }
        Folder::Port(id) => {
            out.put(rt, b"ports/");
            out.number(rt, u64::from(*id));
        }
        Folder::AnaGroup(id, group) => {
            out.put(rt, b"ports/");
            out.number(rt, u64::from(*id));
            out.put(rt, b"/ana_groups/");
            out.number(rt, u64::from(*group));
        }
    }
}

fn attribute(attr: Attr) -> &'static [u8] {
    match attr {
        Attr::AllowAnyHost => b"attr_allow_any_host",
        Attr::Serial => b"attr_serial",
        Attr::ModelName => b"attr_model",
        Attr::DevicePath => b"device_path",
        Attr::DeviceUuid => b"device_uuid",
        Attr::DeviceNguid => b"device_nguid",
        Attr::AnaGrpid => b"ana_grpid",
        Attr::Enable => b"enable",
        Attr::Trtype => b"addr_trtype",
        Attr::Adrfam => b"addr_adrfam",
        Attr::Traddr => b"addr_traddr",
        Attr::Trsvcid => b"addr_trsvcid",
        Attr::Treq => b"addr_treq",
        Attr::AnaState => b"ana_state",
    }
}

fn put_folder_edit(rt: &impl Abort, out: &mut Text, edit: &FolderEdit) {
    match edit {
        FolderEdit::Mkdir(folder) => {
            out.put(rt, b"mkdir ");
            put_folder(rt, out, folder);
        }
        FolderEdit::Rmdir(folder) => {
            out.put(rt, b"rmdir ");
            put_folder(rt, out, folder);
        }
        FolderEdit::Set(folder, attr, value) => {
            out.put(rt, b"set ");
            put_folder(rt, out, folder);
            out.put(rt, b" ");
            out.put(rt, attribute(*attr));
            out.put(rt, b" ");
            out.put(rt, value.as_bytes());
        }
    }
}

fn put_link_edit(rt: &impl Abort, out: &mut Text, edit: &LinkEdit) {
    match edit {
        LinkEdit::AllowHost(sub, host) => {
            out.put(rt, b"link subsystems/");
            out.put(rt, sub.as_bytes());
            out.put(rt, b"/allowed_hosts/");
            out.put(rt, host.as_bytes());
        }
        LinkEdit::LinkSubsystem(id, sub) => {
            out.put(rt, b"link ports/");
            out.number(rt, u64::from(*id));
            out.put(rt, b"/subsystems/");
            out.put(rt, sub.as_bytes());
        }
        _ => out.put(rt, b"unlink"),
    }
}

// The answer of `load` as a text.
pub(crate) fn told(rt: &impl Abort, alloc: Global, answer: &Result<Loaded, JsonError>) -> Text {
    let mut out = Text::new(alloc);
    match answer {
        Ok(loaded) => {
            for edit in loaded.edits.as_slice() {
                match edit {
                    Edit::Folder(edit) => put_folder_edit(rt, &mut out, edit),
                    Edit::Link(edit) => put_link_edit(rt, &mut out, edit),
                }
                out.put(rt, b"\n");
            }
            out.number(rt, loaded.passed_over);
        }
        Err(JsonError::NotJson) => out.put(rt, b"no JSON"),
        Err(JsonError::Shape { at }) => {
            out.put(rt, b"member ");
            out.put(rt, at.as_bytes());
        }
        Err(JsonError::Memory) => out.put(rt, b"memory"),
    }
    out
}
