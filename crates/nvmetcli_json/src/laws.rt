// Laws of loading and saving.
ghost use Rattle.std.specs.Prelude.{◌≡◌, ◌≤◌, true, List, Ok, Some};
ghost use Rattle.std.specs.List.{list_all};
ghost use Rattle.serde_json.specs.Data.{Data};
ghost use Rattle.link_rules.specs.Table.{is_fitting};
ghost use Rattle.link_rules.specs.declared.edits.Edit.{Edit};
ghost use Rattle.nvmetcli_json.specs.Counting.{passed_over};
ghost use Rattle.nvmetcli_json.specs.Loading.{edits_in};
ghost use Rattle.nvmetcli_json.specs.Saving.{tree_data};
ghost use Rattle.nvmetcli_json.specs.Written.{flat, host_written, tree_reads, tree_written};
ghost use Rattle.std.specs.FinMap as map;
ghost use Rattle.configfs_rows.specs.Nqns.{name_order};
ghost use Rattle.configfs_tree.specs.Outcome.{with_settings};
ghost use Rattle.nvmetcli_json.specs.Laws.{all_edited};
ghost use Rattle.configfs_tree.specs.declared.configuration.Configuration as whole;

/// What is read may be made: each edit sets an attribute of its folder, to a text.
pub fn read_edits_fit()
    ensures { (d : Data) → (es : List Edit) → edits_in d ≡ Ok es → list_all is_fitting es ≡ true }
{}

/// What is saved of a tree is read whole, and brings the edits that are written.
pub fn saved_tree_is_read()
    ensures none { (t : whole.Configuration) → passed_over (tree_data t) ≡ 0 }
    ensures edits { (t : whole.Configuration) → tree_reads t ≡ true
        → edits_in (tree_data t) ≡ Ok (tree_written t) }
{}

/// The edits of saved hosts make these hosts, in a tree that has none.
pub fn saved_hosts_are_made()
    ensures { (t : whole.Configuration) → (hosts : map.FinMap name_order (Unit {0}))
        → map.len t.settings.hosts ≡ 0 → map.len hosts ≤ 64
        → all_edited t (flat host_written (map.keys hosts)) ≡ Some (with_settings t
        (record t.settings { hosts = hosts })) }
{}
