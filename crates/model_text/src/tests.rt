ghost use Rattle.std.specs.Prelude.{◌≡◌, ◌↔◌, IsTrue, IfOk};

use crate::{Bytes, Pair, Pairs, Sequence, Text, Texts};
use std::alloc::AllocError;
use std::cmp::Ordering;
use std::test::Fail;

fn copied_bytes(bytes: &Bytes) -> Result<Bytes, AllocError>
    ensures { IfOk result (λ copy. copy ≡ bytes.now) }
{
    bytes.clone()
}

fn copied_texts(texts: &Texts) -> Result<Texts, AllocError>
    ensures { IfOk result (λ copy. copy ≡ texts.now) }
{
    texts.clone()
}

fn copied_pair(pair: &Pair) -> Result<Pair, AllocError>
    ensures { IfOk result (λ copy. copy ≡ pair.now) }
{
    pair.clone()
}

fn is_same_text(a: &Text, b: &Text) -> bool
    ensures { IsTrue result ↔ (a.now ≡ b.now) }
{
    a == b
}

fn is_same_pair(a: &Pair, b: &Pair) -> bool
    ensures { IsTrue result ↔ (a.now ≡ b.now) }
{
    a == b
}

#[test]
fn texts_grow_copy_and_compare_by_their_bytes(rt: HostRuntime) -> Result<(), Fail> {
    let mut text = Text::from_str(rt.alloc(), "hel")?;
    text.append(b"l")?;
    text.push(b'o')?;
    assert_eq!(rt; text.as_slice(), b"hello".as_slice());
    assert_eq!(rt; text.len(), 5);
    let copy = text.clone()?;
    assert!(rt; is_same_text(&copy, &text));
    let later = Text::from_slice(rt.alloc(), b"help")?;
    assert!(rt; !is_same_text(&later, &text));
    assert_eq!(rt; text.cmp(&later), Ordering::Less);
    assert!(rt; later > text);
    let bytes = copy.into_vec();
    assert_eq!(rt; bytes.as_slice(), b"hello".as_slice());
    assert!(rt; Text::from_vec(bytes) == text);
    assert!(rt; Text::new(rt.alloc()).is_empty());
    Ok(())
}

#[test]
fn sequences_grow_shrink_and_copy(rt: HostRuntime) -> Result<(), Fail> {
    let mut bytes = Bytes::from_slice(rt.alloc(), b"ab")?;
    bytes.push(b'c')?;
    if bytes.len() > 1 {
        bytes.set(1, b'x');
    }
    assert_eq!(rt; bytes.as_slice(), b"axc".as_slice());
    assert_eq!(rt; bytes.get(3), None);
    let copy = copied_bytes(&bytes)?;
    assert!(rt; copy == bytes);
    assert_eq!(rt; bytes.pop(), Some(b'c'));
    assert!(rt; copy != bytes);
    let back = Sequence::from_vec(copy.into_vec());
    assert_eq!(rt; back.as_slice(), b"axc".as_slice());
    Ok(())
}

#[test]
fn texts_and_pairs_stand_in_sequences(rt: HostRuntime) -> Result<(), Fail> {
    let mut names = Texts::new(rt.alloc());
    assert!(rt; names.is_empty());
    names.push(Text::from_str(rt.alloc(), "linux")?)?;
    assert!(rt; copied_texts(&names)? == names);
    let pair = Pair {
        name: Text::from_str(rt.alloc(), "MODE")?,
        value: Text::from_str(rt.alloc(), "prod")?,
    };
    let copy = copied_pair(&pair)?;
    assert!(rt; is_same_pair(&copy, &pair));
    let mut variables = Pairs::new(rt.alloc());
    variables.push(copy)?;
    assert_eq!(rt; variables.len(), 1);
    Ok(())
}
