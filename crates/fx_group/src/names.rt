//! Names: which of them have a slash or stand already, and what they stand for.
ghost use Rattle.std.specs.Prelude.{◌≡◌, ◌++◌, IfOk, string_bytes};
ghost use Rattle.std.specs.Option.{option_copied};
ghost use Rattle.std.specs.List.{find};
ghost use Rattle.std.specs.Str.{bytes_eq};
ghost use Rattle.fx_group.specs.Names.{look, is_among, has_slash};
ghost use Rattle.fx_group.specs.Expansion.{meant, prefixed};

use fx_base::{Memory, Name};
use std::alloc::Global;

/// Whether a text has a slash.
pub(crate) fn has_slash(text: &str) -> bool
    ensures { result ≡ has_slash text.now }
{
    text.as_bytes().iter().any(|b| *b == b'/')
}

/// Whether a name is one of these.
pub(crate) fn is_among(names: &[Name], name: &str) -> bool
    ensures { result ≡ is_among names.now name.now }
{
    names.iter().any(|n| n.text() == name)
}

// The first that stands under a name.
fn entry<'a>(targets: &'a [(Name, Name)], name: &str) -> Option<&'a (Name, Name)>
    ensures { option_copied result ≡ find (λ t. bytes_eq t.0 name.now) targets.now }
{
    targets.iter().find(|t| t.0.text() == name)
}

/// What stands under a name.
#[tactic(auto, using(crate::proofs::Texts::look_find))]
pub(crate) fn look<'a>(targets: &'a [(Name, Name)], name: &str) -> Option<&'a Name>
    ensures { option_copied result ≡ look targets.now name.now }
{
    match entry(targets, name) {
        Some(t) => Some(&t.1),
        None => None,
    }
}

/// What a text stands for under a prefix.
pub(crate) fn meant(
    alloc: Global,
    targets: &[(Name, Name)],
    prefix: &str,
    text: &str,
) -> Result<Name, Memory>
    ensures { IfOk result (λ name. name ≡ meant targets.now prefix.now text.now) }
{
    match look(targets, text) {
        Some(name) => name.copied(alloc),
        None => joined(alloc, prefix, text),
    }
}

/// A prefix and a name.
pub(crate) fn joined(alloc: Global, prefix: &str, name: &str) -> Result<Name, Memory>
    ensures { IfOk result (λ joined. joined ≡ prefix.now ++ name.now) }
{
    let text = format!(in alloc; "{prefix}{name}")?;
    Ok(Name::of(text))
}

/// The prefix within a use.
pub(crate) fn prefixed(alloc: Global, prefix: &str, name: &str) -> Result<String, Memory>
    ensures { IfOk result (λ text. string_bytes text ≡ prefixed prefix.now name.now) }
{
    Ok(format!(in alloc; "{prefix}{name}/")?)
}
