//! The uses of each name.
ghost use Rattle.std.specs.Prelude.{◌≡◌, ◌<◌, ◌≤◌, length, IfOk};
ghost use Rattle.link_maps.specs.{Records.{by_name, is_same_name, uses_of_name}, Groups.groups_of};

use crate::uses::Use;
use std::alloc::{AllocError, Global};

fn is_same_name(one: &Use, other: &Use) -> bool
    ensures { result ≡ is_same_name one.now other.now }
{
    one.symbol.name == other.symbol.name
}

/// How many uses, which are in the order of their names, are of the name of the first one.
fn uses_of_name(uses: &[Use]) -> usize
    requires { 0 < length uses.now }
    ensures value { result ≡ uses_of_name uses.now }
    ensures some { 0 < result }
    ensures within { result ≤ length uses.now }
{
    let mut last = 0;
    while last + 1 < uses.len() && is_same_name(&uses[last], &uses[last + 1]) {
        last += 1;
    }
    last + 1
}

/// The uses of each name, from uses in the order of their names. An error: out of memory.
pub(crate) fn by_name(alloc: Global, uses: &[Use]) -> Result<Vec<&[Use]>, AllocError>
    ensures { IfOk result (λ groups. groups_of groups.items ≡ by_name uses.now) }
{
    let mut groups = Vec::new(alloc);
    let mut rest = uses;
    while !rest.is_empty() {
        let (named, after) = rest.split_at(uses_of_name(rest));
        groups.push(named)?;
        rest = after;
    }
    Ok(groups)
}
