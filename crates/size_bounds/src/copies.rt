//! Copies of members.

ghost use Rattle.std.specs.Prelude.{◌≡◌, map, IfOk};
ghost use Rattle.cert_types.specs.Views.{member_of};

use bound_expr::Memory;
use cert_types::{Member, copied_local};
use std::alloc::Global;

/// A copy of a member.
///
/// # Errors
///
/// `Memory` where an allocation fails.
pub fn copied_member(alloc: Global, member: &Member) -> Result<Member, Memory>
    ensures { IfOk result (λ m. member_of m ≡ member_of member.now) }
{
    let local = copied_local(alloc, &member.local)?;
    Ok(Member {
        result_variable: member.result_variable,
        local,
    })
}

/// The same members, in order.
///
/// # Errors
///
/// `Memory` where an allocation fails.
pub fn copied_members(alloc: Global, members: &[Member]) -> Result<Vec<Member>, Memory>
    ensures { IfOk result (λ ms. map member_of ms.items ≡ map member_of members.now) }
{
    let mut copies = Vec::new(alloc);
    for member in members {
        let copy = copied_member(alloc, member)?;
        copies.push(copy)?;
    }
    Ok(copies)
}
