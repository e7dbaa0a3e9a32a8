//! Crash images: each crash image of a tree is recovered, twice, and compared with the files before
//! and after a command line. The rules are in `tests/rows.md`, "What goes wrong" and "Crash images
//! and repetitions".
use crate::check::{Program, Trial};
use crate::report::{Piece, Report};
use crate::start::are_alike;
use tree_memory::MemoryTree;

/// The two sides of a command line: the files that the command line finds, and those that it leaves
/// if nothing fails, both after a recovery.
pub struct Sides {
    /// The files that the command line finds (the old files).
    pub before: MemoryTree,
    /// The files that the command line leaves (the new files).
    pub after: MemoryTree,
}

/// Drops the parts in one call, so that a function that gives up has one drop and not many.
impl Drop for Sides {
    fn drop(self) {
        let Sides {
            before: _,
            after: _,
        } = self;
    }
}

/// Which side of a command line the recovered files of a tree are. If the command line changes
/// nothing, they can be both sides.
#[derive(Drop)]
pub struct Found {
    /// The files are those that the command line finds.
    pub before: bool,
    /// The files are those that the command line leaves.
    pub after: bool,
}

impl Sides {
    /// The two sides of a command line, which left the tree `after`.
    pub fn new<P: Program>(trial: &Trial<'_, P>, after: &MemoryTree, report: &mut Report) -> Sides {
        let before = report.image_of(trial.before, 0);
        let after = report.image_of(after, 0);
        Sides {
            before: recovered(trial, before, report),
            after: recovered(trial, after, report),
        }
    }

    /// Which side of the command line the files of a tree, after a recovery, are. If they are
    /// neither side, the row fails. `place` names the tree in the report.
    pub fn find<P: Program>(
        &self,
        trial: &Trial<'_, P>,
        tree: MemoryTree,
        place: &[Piece<'_>],
        report: &mut Report,
    ) -> Found {
        let tree = recovered(trial, tree, report);
        let found = Found {
            before: are_alike(&tree, &self.before, false, report),
            after: are_alike(&tree, &self.after, false, report),
        };
        if !found.before && !found.after {
            let how = b" has neither the files of before nor those of behind";
            report.differ(trial.step.line, place, how);
        }
        found
    }

    /// Checks that each crash image of a tree has, after a recovery, the files that the command
    /// line leaves.
    pub fn check_images<P: Program>(
        &self,
        trial: &Trial<'_, P>,
        tree: &MemoryTree,
        report: &mut Report,
    ) {
        for choice in 0..images_of(tree) {
            let Some(image) = new_image(tree, choice, report) else {
                continue;
            };
            let image = recovered(trial, image, report);
            if !are_alike(&image, &self.after, false, report) {
                let what = [Piece::Text(b"image "), Piece::Number(choice)];
                report.differ(trial.step.line, &what, b" behind the run has other files");
                return;
            }
        }
    }
}

/// How many crash images of a tree are checked. Each map of names that a number picks has three
/// images: unsynced files have their bytes as read, no bytes, or bytes of value 255
/// (`docs/crash-safety.md`, "Images of the tree in memory").
pub fn images_of(tree: &MemoryTree) -> u64 {
    tree.picks().saturating_mul(3)
}

/// The crash image of a tree that the number `choice` picks. None if this image equals the one with
/// the same map of names and all files as read, which a smaller number picks.
pub fn new_image(tree: &MemoryTree, choice: u64, report: &mut Report) -> Option<MemoryTree> {
    let image = report.image_of(tree, choice);
    let picks = tree.picks();
    // The numbers below `picks` are the images with all files as read.
    if picks == 0 || choice < picks {
        return Some(image);
    }
    // The image with the same map of names, and all files as read.
    let as_read = report.image_of(tree, choice % picks);
    if are_alike(&image, &as_read, true, report) {
        return None;
    }
    Some(image)
}

/// The tree after a recovery. A second recovery has to succeed too, and to change no file.
fn recovered<P: Program>(
    trial: &Trial<'_, P>,
    tree: MemoryTree,
    report: &mut Report,
) -> MemoryTree {
    let mut tree = tree;
    // `first` is the tree after the first of two recoveries.
    let went_well = trial.program.recover(report.alloc, &mut tree);
    let first = report.image_of(&tree, 0);
    if !went_well || !trial.program.recover(report.alloc, &mut tree) {
        report.differ(trial.step.line, &[], b"a recovery fails");
    } else if !are_alike(&first, &tree, false, report) {
        report.differ(
            trial.step.line,
            &[],
            b"a second recovery leaves other files",
        );
    }
    first
}
