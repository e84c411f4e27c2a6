ghost use Rattle.std.specs.Prelude.{◌≡◌, ◌↔◌, IsTrue, IfOk};

use crate::Chain;
use std::alloc::AllocError;
use std::test::Fail;

fn copied(chain: &Chain<u32>) -> Result<Chain<u32>, AllocError>
    ensures { IfOk result (λ copy. copy ≡ chain.now) }
{
    chain.clone()
}

fn is_same(a: &Chain<u32>, b: &Chain<u32>) -> bool
    ensures { IsTrue result ↔ (a.now ≡ b.now) }
{
    a == b
}

fn last(chain: &Chain<u32>) -> u32 {
    let mut seen = 0;
    for number in chain {
        seen = *number;
    }
    seen
}

fn sent<T: Send + Sync>(value: T) -> T {
    value
}

#[test]
fn chains_share_what_stands_behind(rt: HostRuntime) -> Result<(), Fail> {
    let empty = Chain::<u32>::new(rt.alloc());
    assert!(rt; empty.is_empty());
    let outer = empty.with(7)?.with(8)?;
    let inner = copied(&outer)?.with(9)?;
    assert_eq!(rt; inner.len(), 3);
    assert_eq!(rt; outer.len(), 2);
    assert!(rt; !outer.is_empty());
    drop(outer);
    let (first, behind) = inner.split().ok_or("empty")?;
    assert_eq!(rt; *first, 9);
    assert_eq!(rt; behind.len(), 2);
    assert_eq!(rt; inner.nth(2).copied(), Some(7));
    assert_eq!(rt; inner.nth(3).copied(), None);
    assert_eq!(rt; last(&inner), 7);
    assert!(rt; sent(inner).split().is_some());
    Ok(())
}

#[test]
fn chains_compare_and_print_by_their_elements(rt: HostRuntime) -> Result<(), Fail> {
    let chain = Chain::from_vec([1, 2, 3].to_vec(rt.alloc())?)?;
    let same = Chain::from_vec([1, 2, 3].to_vec(rt.alloc())?)?;
    let shorter = Chain::from_vec([1, 2].to_vec(rt.alloc())?)?;
    let other = Chain::from_vec([1, 2, 4].to_vec(rt.alloc())?)?;
    assert!(rt; is_same(&chain, &same));
    assert!(rt; !is_same(&chain, &shorter));
    assert!(rt; !is_same(&shorter, &chain));
    assert!(rt; !is_same(&chain, &other));
    let printed = format!(in rt.alloc(); "{chain:?}")?;
    assert_eq!(rt; printed.as_str(), "[1, 2, 3]");
    Ok(())
}

#[test]
fn a_chain_of_a_million_is_dropped(rt: HostRuntime) -> Result<(), Fail> {
    let mut chain = Chain::new(rt.alloc());
    for number in 0..1_000_000u32 {
        chain = chain.with(number)?;
    }
    let copy = chain.clone()?;
    drop(chain);
    assert_eq!(rt; copy.len(), 1_000_000);
    drop(copy);
    Ok(())
}
