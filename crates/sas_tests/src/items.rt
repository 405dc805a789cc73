use lists::{List, Name, Text};
use std::alloc::{AllocError, Global};
use std::test::*;

fn is_list_kept(alloc: Global) -> Result<bool, AllocError> {
    let list = List::from_vec(Vec::from_slice(alloc, &[3u64, 1, 4])?);
    let other = List::from_vec(Vec::from_slice(alloc, &[3u64, 1, 5])?);
    let is_same = list == list && list != other && list.as_slice() == [3, 1, 4].as_slice();
    Ok(is_same & (list.into_vec().as_slice() == [3, 1, 4].as_slice()))
}

fn is_text_kept(alloc: Global) -> Result<bool, AllocError> {
    let text = Text::from_slice(alloc, b"ball")?;
    let other = Text::from_vec(Vec::from_slice(alloc, b"bell")?);
    Ok(text == text && text != other && text.as_slice() == b"ball".as_slice())
}

/// Whether the name keeps these bytes, and the lowered one those.
fn is_name_kept(alloc: Global, bytes: &[u8], lowered: &[u8]) -> Result<bool, AllocError> {
    let name = Name::from_slice(alloc, bytes)?;
    let other = Name::lowered(alloc, bytes)?;
    Ok(name != other && name.as_slice() == bytes && other.as_slice() == lowered)
}

#[test]
fn lists_keep_their_items_and_texts_and_names_their_bytes(rt: HostRuntime) {
    assert!(rt; matches!(is_list_kept(rt.alloc()), Ok(true)));
    assert!(rt; matches!(is_text_kept(rt.alloc()), Ok(true)));
    assert!(rt; matches!(is_name_kept(rt.alloc(), b"Ball", b"ball"), Ok(true)));
    assert!(rt;
        matches!(
            is_name_kept(
                rt.alloc(),
                b"A-Ball-With-A-Long-Name",
                b"a-ball-with-a-long-name"
            ),
            Ok(true)
        )
    );
}
