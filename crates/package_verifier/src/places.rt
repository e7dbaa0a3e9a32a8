//! Where the contents of a package's files begin. The order of the files is that of
//! `docs/formats.md`, "The other blocks"; a place is found by bisection.

ghost use Rattle.std.specs.List.Sorted.{IsPartitionPoint};
ghost use Rattle.std.specs.Prelude.{◌≡◌, ◌≤◌, ◌++◌, ◌∷◌, [], true, false, if◌then◌else◌, length, OnOk};
ghost use Rattle.package_verifier.specs.Places.{AreInFileOrder, is_before_file, offset_of_file, place_of_part};

use package_reader::Part;
use std::alloc::AllocError;

/// Where the contents of a file begin in its package: the positions of the folder and of the file
/// in it, and the offset of the contents.
#[derive(Clone, Copy)]
pub(crate) struct FilePlace {
    /// The position of the file's folder in the package, counted from 1.
    pub folder: u32,
    /// The position of the file in this folder, counted from 1.
    pub file: u32,
    /// The offset in the package at which the contents of the file begin.
    pub at: u64,
}

/// Records that the file of a part begins at the offset `at`, if the part is the last piece of the
/// file.
pub(crate) fn keep_place(places: &mut Vec<FilePlace>, part: Part, at: u64) -> Result<(), AllocError>
    // On Ok, a last part adds the place of its file at the end, and another part adds nothing.
    ensures { OnOk result (places.new.items ≡ (if part.last
        then places.old.items ++ place_of_part part at ∷ [] else places.old.items)) }
{
    if part.last {
        places.push(FilePlace {
            folder: part.path,
            file: part.file,
            at,
        })?;
    }
    Ok(())
}

/// The offset at which the file with these positions begins, by bisection of places that are in the
/// order of the files. None if no place is that of this file.
pub(crate) fn offset_of(places: &[FilePlace], folder: u32, file: u32) -> Option<u64>
    ensures { AreInFileOrder places.now → result ≡ offset_of_file folder file places.now }
{
    // The index of the first place that is not before the wanted one.
    let i = count_before(places, folder, file);
    if i == places.len() {
        return None;
    }
    let place = places[i];
    if place.folder != folder {
        return None;
    }
    if place.file != file {
        return None;
    }
    Some(place.at)
}

/// How many of the places are those of files before the one with these positions.
fn count_before(places: &[FilePlace], folder: u32, file: u32) -> usize
    // The result is at most the length.
    ensures within { result ≤ length places.now }
    // If the places are in order: all places before the returned index are of files before the one
    // with these positions, and no place from this index on is.
    ensures point { AreInFileOrder places.now → IsPartitionPoint
        (λ place. is_before_file place.folder place.file folder file ≡ true)
        (λ place. is_before_file place.folder place.file folder file ≡ false) places.now result }
{
    places.partition_point(|place| is_before(place, folder, file))
}

/// Whether a place is that of a file before the one with these positions.
fn is_before(place: &FilePlace, folder: u32, file: u32) -> bool
    ensures { result ≡ is_before_file place.now.folder place.now.file folder file }
{
    place.folder < folder || place.folder == folder && place.file < file
}
