// Laws of what lines say, each the contract of a function that does nothing.
ghost use Rattle.std.specs.Prelude.{◌≡◌, ◌↔◌, ℕ, List, IsTrue};
ghost use Rattle.link_rules.specs.Spelling.{IsLineOf, edit_words, fits};
ghost use Rattle.link_rules.specs.declared.edits.Edit.{Edit};
ghost use Rattle.script_lines.specs.Script.{script_words};

/// A law, with nothing to run: a line of a script has the words of an edit exactly where it is the
/// line of the edit, with one space between each two words. Where an attribute is set to nothing,
/// the last space may lack.
pub fn lines_spell_edits()
    ensures { (line : List ℕ) (e : Edit) → IsTrue (fits e)
        → (script_words line ≡ edit_words e) ↔ IsLineOf e line }
{}
