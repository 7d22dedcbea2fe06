// The script of a run.
ghost use Rattle.std.specs.Prelude.{◌≡◌, ◌≤◌, [], All, IfErr, IfOk, IfSome, IsTrue, IsUtf8, Some, length};
ghost use Rattle.link_rules.specs.Table.{is_fitting};
ghost use Rattle.script_lines.specs.declared.lines.TheConstants.{MAX_LINES};
ghost use Rattle.run_inputs.specs.InputFiles.{script_files};
ghost use Rattle.run_inputs.specs.Known.{Known};
ghost use Rattle.run_inputs.specs.ScriptFile.{line_error, script_of_file};
ghost use Rattle.run_inputs.specs.Stages.{Gives, ReadOn, StoppedIn};
ghost use Rattle.run_inputs.specs.Views.{IsEarlier, seen};

use crate::contents::{MAX_SCRIPT_BYTES, read_content};
use mem_bdev::Name;
use plan_files::Files;
use run_outcomes::{At, Fault, SCRIPT};
use run_transcript::ScriptEdit;
use script_edits::read_script;
use script_lines::LineError;
use std::alloc::Global;

fn line_fault(error: LineError) -> Fault
    ensures { result ≡ line_error error }
{
    match error {
        LineError::BadLine { line } => Fault::Malformed {
            file: SCRIPT,
            at: At::Line(line),
        },
        LineError::TooLong { what, count } => Fault::Limit {
            file: SCRIPT,
            what,
            count,
        },
        LineError::Memory => Fault::Memory,
    }
}

// The edits in these bytes.
#[tactic(auto, unfolding(crate::specs::ScriptFile::script_of_file))]
fn parse_script(alloc: Global, bytes: &[u8]) -> Result<Vec<ScriptEdit>, Fault>
    requires { length bytes.now ≤ MAX_SCRIPT_BYTES }
    ensures exact { Gives (λ v. v.items) result (script_of_file bytes.now) }
    ensures fitting { IfOk result (λ v. All (λ s. IsTrue (is_fitting s.edit)) v.items) }
    ensures few { IfOk result (λ v. length v.items ≤ MAX_LINES) }
{
    match read_script(alloc, bytes) {
        Ok(edits) => Ok(edits),
        Err(error) => Err(line_fault(error)),
    }
}

// The edits of the script of this name.
fn read_named_script<F: Files>(
    alloc: Global,
    name: &Name,
    files: &mut F,
) -> Result<Vec<ScriptEdit>, Fault>
    requires { IsUtf8 name.now }
    ensures read { IfOk result (λ v. (s : Known) → ReadOn
        (seen (F.tells files.old) (F.told files.old) (F.faults files.old) (F.last files.old))
        (script_files (Some name.now)) (record s { script = [] }) (record s { script = v.items })) }
    ensures fitting { IfOk result (λ v. All (λ s. IsTrue (is_fitting s.edit)) v.items) }
    ensures few { IfOk result (λ v. length v.items ≤ MAX_LINES) }
    ensures refused { IfErr result (λ f. (s : Known) → StoppedIn
        (seen (F.tells files.old) (F.told files.old) (F.faults files.old) (F.last files.old))
        (seen (F.tells files.new) (F.told files.new) (F.faults files.new) (F.last files.new))
        (script_files (Some name.now)) s f) }
    ensures later { IsEarlier
        (seen (F.tells files.old) (F.told files.old) (F.faults files.old) (F.last files.old))
        (seen (F.tells files.new) (F.told files.new) (F.faults files.new) (F.last files.new)) }
{
    let name = name.as_text().unwrap();
    match read_content(alloc, name, MAX_SCRIPT_BYTES, SCRIPT, files) {
        Ok(bytes) => parse_script(alloc, &bytes),
        Err(fault) => Err(fault),
    }
}

/// The edits of the script of a plan, a file of at most 4 MiB; none where the plan has no script.
pub fn read_script_file<F: Files>(
    alloc: Global,
    script: &Option<Name>,
    files: &mut F,
) -> Result<Vec<ScriptEdit>, Fault>
    requires { IfSome script.now (λ name. IsUtf8 name) }
    ensures read { IfOk result (λ v. (s : Known) → ReadOn
        (seen (F.tells files.old) (F.told files.old) (F.faults files.old) (F.last files.old))
        (script_files script.now) (record s { script = [] }) (record s { script = v.items })) }
    ensures fitting { IfOk result (λ v. All (λ s. IsTrue (is_fitting s.edit)) v.items) }
    ensures few { IfOk result (λ v. length v.items ≤ MAX_LINES) }
    ensures refused { IfErr result (λ f. (s : Known) → StoppedIn
        (seen (F.tells files.old) (F.told files.old) (F.faults files.old) (F.last files.old))
        (seen (F.tells files.new) (F.told files.new) (F.faults files.new) (F.last files.new))
        (script_files script.now) s f) }
    ensures later { IsEarlier
        (seen (F.tells files.old) (F.told files.old) (F.faults files.old) (F.last files.old))
        (seen (F.tells files.new) (F.told files.new) (F.faults files.new) (F.last files.new)) }
{
    match script {
        Some(name) => read_named_script(alloc, name, files),
        None => Ok(Vec::new(alloc)),
    }
}
