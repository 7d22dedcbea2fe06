use link_rules::Edit;

/// An edit of a script, with the number of its line, from 1.
#[derive(Drop)]
pub struct ScriptEdit {
    pub line: u32,
    pub edit: Edit,
}
