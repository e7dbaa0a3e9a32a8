//! The lines that a run prints after an I/O error of the tree, and if it runs out of memory. The
//! rules are in `docs/commands.md`, "Answers and statuses".

ghost use Rattle.std.specs.Prelude.{◌≡◌, codes};
ghost use Rattle.report_core.specs.Texts.{out_of_memory_line, tree_failure_line};

/// The text of each of the two lines.
pub fn each_failure_has_its_line()
    // The line after an I/O error of the tree.
    ensures tree { tree_failure_line ≡ codes "ERROR: the tree failed\n" }
    // The line if memory runs out.
    ensures memory { out_of_memory_line ≡ codes "ERROR: out of memory\n" }
{}
