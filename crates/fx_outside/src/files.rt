//! Files by their names in memory: a list that is read, and a map that is written.
ghost use Rattle.std.specs.Prelude.{◌≡◌, OnOk, OnErr, option_map};
ghost use Rattle.fx_outside.specs.Memory.{first_of, kept};
ghost use Rattle.fx_outside.specs.Outside.{SameFiles, Sets};

use fx_base::Name;
use std::alloc::{AllocError, Global};
use std::collections::BTreeMap;

/// The first file of that name.
pub fn first_of<'a>(files: &'a [(Name, Vec<u8>)], name: &str) -> Option<&'a (Name, Vec<u8>)>
    ensures { option_map (λ file. file.now.1.items) result ≡ first_of files.now name.now }
{
    files.iter().find(|file| file.0.text() == name)
}

/// The bytes kept under a name: `None` where there are none.
pub fn bytes_of<'a>(files: &'a BTreeMap<String, Vec<u8>>, name: &str) -> Option<&'a [u8]>
    ensures { option_map (λ bytes. bytes.now) result ≡ kept files.now name.now }
{
    match files.get(name) {
        Some(bytes) => Some(bytes.as_slice()),
        None => None,
    }
}

/// Puts the bytes in the place of those of that name. Where memory is wanting, nothing changed.
pub fn keep(
    alloc: Global,
    files: &mut BTreeMap<String, Vec<u8>>,
    name: &str,
    bytes: &[u8],
) -> Result<(), AllocError>
    ensures ok { OnOk result (Sets name.now bytes.now (kept files.old) (kept files.new)) }
    ensures err { OnErr result (SameFiles (kept files.old) (kept files.new)) }
{
    let key = String::from_str(alloc, name)?;
    let copy = bytes.to_vec(alloc)?;
    files.insert(key, copy)?;
    Ok(())
}
