ghost use Rattle.std.specs.List.{All};
ghost use Rattle.fts_ids.specs.Ids.{Ascend};

use fts_ids::{common, union, union_all, without};
use std::alloc::{AllocError, Global};
use std::test::Fail;

fn are_common(alloc: Global, ids: &[u64], others: &[u64], want: &[u64]) -> Result<bool, AllocError>
    requires ids { Ascend ids.now }
    requires others { Ascend others.now }
{
    Ok(common(alloc, ids, others)?.as_slice() == want)
}

#[test]
fn ids_in_common_are_found(rt: HostRuntime) -> Result<(), Fail> {
    let alloc = rt.alloc();
    assert!(rt; are_common(alloc, &[1, 4, 9, 12], &[0, 4, 5, 6, 7, 8, 9], &[4, 9])?);
    assert!(rt; are_common(alloc, &[1, 4], &[], &[])?);
    assert!(rt;
        are_common(
            alloc,
            &[7, 900, 4_000],
            &[7, 800, 4_000, 4_001],
            &[7, 4_000]
        )?
    );
    Ok(())
}

fn are_left(alloc: Global, ids: &[u64], taken: &[u64], want: &[u64]) -> Result<bool, AllocError>
    requires ids { Ascend ids.now }
    requires taken { Ascend taken.now }
{
    Ok(without(alloc, ids, taken)?.as_slice() == want)
}

#[test]
fn ids_are_taken_out(rt: HostRuntime) -> Result<(), Fail> {
    assert!(rt; are_left(rt.alloc(), &[1, 4, 9, 12], &[0, 4, 5, 12, 13], &[1, 9])?);
    assert!(rt; are_left(rt.alloc(), &[7], &[], &[7])?);
    Ok(())
}

fn are_in_either(
    alloc: Global,
    ids: &[u64],
    others: &[u64],
    want: &[u64],
) -> Result<bool, AllocError>
    requires ids { Ascend ids.now }
    requires others { Ascend others.now }
{
    Ok(union(alloc, ids, others)?.as_slice() == want)
}

#[test]
fn lists_are_united(rt: HostRuntime) -> Result<(), Fail> {
    assert!(rt; are_in_either(rt.alloc(), &[1, 4, 9], &[0, 4, 9, 20], &[0, 1, 4, 9, 20])?);
    assert!(rt; are_in_either(rt.alloc(), &[], &[3], &[3])?);
    Ok(())
}

fn are_in_any(alloc: Global, lists: &[&[u64]], want: &[u64]) -> Result<bool, AllocError>
    requires { All (λ list. Ascend list.now) lists.now }
{
    Ok(union_all(alloc, lists)?.as_slice() == want)
}

#[test]
fn many_lists_are_united(rt: HostRuntime) -> Result<(), Fail> {
    let lists: [&[u64]; 5] = [&[5, 8], &[1, 5], &[], &[2, 8, 9], &[1]];
    assert!(rt; are_in_any(rt.alloc(), &lists, &[1, 2, 5, 8, 9])?);
    assert!(rt; are_in_any(rt.alloc(), &[], &[])?);
    Ok(())
}

// Lists whose ids lie far apart.
#[test]
fn sparse_lists_are_united(rt: HostRuntime) -> Result<(), Fail> {
    let lists: [&[u64]; 5] = [&[900], &[7, 4_000], &[], &[7, 900, 4_001], &[1_000]];
    assert!(rt; are_in_any(rt.alloc(), &lists, &[7, 900, 1_000, 4_000, 4_001])?);
    let lists: [&[u64]; 4] = [&[u64::MAX], &[0], &[u64::MAX], &[1]];
    assert!(rt; are_in_any(rt.alloc(), &lists, &[0, 1, u64::MAX])?);
    Ok(())
}
