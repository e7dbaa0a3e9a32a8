//! Names, paths and contents of the packages and files that `demo` makes, by the number i of the
//! package. The rules are in `docs/commands.md`, "`demo N`".
ghost use Rattle.std.specs.Prelude.{◌≡◌, ◌<◌, ◌++◌, IfOk, OnOk};
ghost use Rattle.outcome.specs.DemoLines.{demo_file, demo_folder, demo_index_path, demo_package_name, demo_package_path, demo_repositories, contents_of_demo_file, demo_version, digit_at_unit_of_number};

use std::alloc::{AllocError, Global};

/// The path of the index of all packages.
pub(crate) const INDEX: &[u8] = b"demo/index.adb";

/// The contents of `etc/apk/repositories` in the tree of `demo`: one line, which names the index.
pub fn demo_repositories() -> &'static [u8]
    ensures { result.now ≡ demo_repositories }
{
    b"demo/index.adb\n"
}

/// The path of the one file that package i is made of.
pub fn demo_file(alloc: Global, i: u16) -> Result<Vec<u8>, AllocError>
    ensures { IfOk result (λ text. text.items ≡ demo_file i) }
{
    let mut text = demo_folder(alloc, i)?;
    text.extend_from_slice(b"/usr/share/demo/")?;
    push_name(&mut text, i)?;
    Ok(text)
}

/// The contents of the one file of package i: its name and a line end.
pub fn contents_of_demo_file(alloc: Global, i: u16) -> Result<Vec<u8>, AllocError>
    ensures { IfOk result (λ text. text.items ≡ contents_of_demo_file i) }
{
    let mut text = Vec::new(alloc);
    push_name(&mut text, i)?;
    text.extend_from_slice(b"\n")?;
    Ok(text)
}

/// The folder with the files of package i, which `mkpkg` is given with `-F`.
pub(crate) fn demo_folder(alloc: Global, i: u16) -> Result<Vec<u8>, AllocError>
    ensures { IfOk result (λ text. text.items ≡ demo_folder i) }
{
    let mut text = Vec::from_slice(alloc, b"demo/")?;
    push_name(&mut text, i)?;
    Ok(text)
}

/// The path of the file of package i, in the folder of the index.
pub(crate) fn demo_package_path(alloc: Global, i: u16) -> Result<Vec<u8>, AllocError>
    ensures { IfOk result (λ text. text.items ≡ demo_package_path i) }
{
    let mut text = demo_folder(alloc, i)?;
    text.extend_from_slice(b"-")?;
    push_version(&mut text, i)?;
    text.extend_from_slice(b".apk")?;
    Ok(text)
}

/// Adds the name of package i: `p` and i in five digits.
pub(crate) fn push_name(text: &mut Vec<u8>, i: u16) -> Result<(), AllocError>
    ensures { OnOk result (text.new.items ≡ text.old.items ++ demo_package_name i) }
{
    let digits = [
        b'p',
        digit_at_unit_of_number(10000, i),
        digit_at_unit_of_number(1000, i),
        digit_at_unit_of_number(100, i),
        digit_at_unit_of_number(10, i),
        digit_at_unit_of_number(1, i),
    ];
    text.extend_from_slice(&digits)
}

/// Adds the version of package i: `1.A-rB`, where A is i modulo 7, and B is i modulo 3.
pub(crate) fn push_version(text: &mut Vec<u8>, i: u16) -> Result<(), AllocError>
    ensures { OnOk result (text.new.items ≡ text.old.items ++ demo_version i) }
{
    text.extend_from_slice(b"1.")?;
    text.push(digit_at_unit_of_number(1, i % 7))?;
    text.extend_from_slice(b"-r")?;
    text.push(digit_at_unit_of_number(1, i % 3))?;
    Ok(())
}

// The ASCII code of one decimal digit of i: for the unit 100 that of the hundreds.
fn digit_at_unit_of_number(unit: u16, i: u16) -> u8
    requires { 0 < unit }
    ensures { result ≡ digit_at_unit_of_number unit i }
{
    b'0' + (i / unit % 10) as u8
}
