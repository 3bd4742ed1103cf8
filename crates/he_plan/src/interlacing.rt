// Interlacing two families (RFC 8305 section 4).

ghost use Rattle.std.specs.Prelude.{◌≡◌, ◌≤◌, ◌<◌, ◌++◌, not, filter, take, drop, IfOk, OnOk};
ghost use Rattle.he_addr.specs.Ip.{family_of};
ghost use Rattle.he_plan.specs.Alternating.{interlace, interlace_by, alternate};
ghost use Rattle.he_timeline.specs.Timeline.{is_of};

use he_addr::{Family, Ip, Memory};
use std::alloc::Allocator;

/// The addresses interlaced (RFC 8305 section 4): the first `count` addresses of the first one's family come first,
/// then the families alternate, and when one runs out the rest of the other follows.
pub fn interlace<A: Allocator + Copy>(
    alloc: A,
    ips: &[Ip],
    count: u64,
) -> Result<Vec<Ip, A>, Memory>
    requires { 1 ≤ count }
    ensures { IfOk result (λ v. v.items ≡ interlace ips.now count) }
{
    // At most two addresses are in order already, whatever their families.
    if ips.len() <= 2 {
        return Ok(Vec::from_slice(alloc, ips)?);
    }
    let Some(first) = ips.first() else {
        return Ok(Vec::new(alloc));
    };
    Ok(interlace_by(alloc, first.family(), ips, count as usize)?)
}

fn interlace_by<A: Allocator + Copy>(
    alloc: A,
    family: Family,
    ips: &[Ip],
    count: usize,
) -> Result<Vec<Ip, A>, Memory>
    ensures { IfOk result (λ v. v.items ≡ interlace_by family ips.now count) }
{
    let leading = members(alloc, family, ips)?;
    if leading.len() == ips.len() {
        return Ok(leading);
    }
    let other = others(alloc, family, ips)?;
    let first = leading.len().min(count);
    let mut interlaced = Vec::with_capacity(alloc, ips.len())?;
    interlaced.extend_from_slice(&leading[..first])?;
    alternate(&mut interlaced, &other, &leading[first..])?;
    Ok(interlaced)
}

pub(crate) fn members<A: Allocator>(
    alloc: A,
    family: Family,
    ips: &[Ip],
) -> Result<Vec<Ip, A>, Memory>
    ensures { IfOk result (λ v. v.items ≡ filter (is_of family) ips.now) }
{
    let mut members = Vec::with_capacity(alloc, ips.len())?;
    for ip in ips {
        if is_of(family, *ip) {
            members.push(*ip)?;
        }
    }
    Ok(members)
}

fn others<A: Allocator>(alloc: A, family: Family, ips: &[Ip]) -> Result<Vec<Ip, A>, Memory>
    ensures { IfOk result (λ v. v.items ≡ filter (λ ip. not (is_of family ip)) ips.now) }
{
    let mut others = Vec::with_capacity(alloc, ips.len())?;
    for ip in ips {
        if !is_of(family, *ip) {
            others.push(*ip)?;
        }
    }
    Ok(others)
}

fn is_of(family: Family, ip: Ip) -> bool
    ensures { result ≡ is_of family ip }
{
    ip.family() == family
}

fn alternate<A: Allocator>(
    interlaced: &mut Vec<Ip, A>,
    other: &[Ip],
    leading: &[Ip],
) -> Result<(), Memory>
    ensures { OnOk result (interlaced.new.items ≡ interlaced.old.items ++ alternate other.now leading.now) }
{
    let mut i = 0;
    while i < other.len() && i < leading.len() {
        interlaced.push(other[i])?;
        interlaced.push(leading[i])?;
        i += 1;
    }
    interlaced.extend_from_slice(&other[i..])?;
    interlaced.extend_from_slice(&leading[i..])
}
