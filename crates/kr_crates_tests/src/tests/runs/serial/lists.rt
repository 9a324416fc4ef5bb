//! Lists that are made of vectors and give them back.

use kr_serial::{Name, Replies, Reply, Triples};
use std::alloc::AllocError;

#[test]
fn replies_are_made_of_a_vector_and_give_it_back(rt: HostRuntime) -> Result<(), AllocError> {
    let mut list = Vec::new(rt.alloc());
    list.push(Reply::None)?;
    list.push(Reply::Done)?;
    let replies = Replies::from_vec(list);
    let shown = replies.as_slice();
    assert_eq!(rt; shown.len(), 2);
    assert!(rt; matches!(&shown[0], Reply::None));
    assert!(rt; matches!(&shown[1], Reply::Done));
    assert_eq!(rt; replies.into_vec().len(), 2);
    Ok(())
}

#[test]
fn triples_are_made_of_a_vector_and_give_it_back(rt: HostRuntime) -> Result<(), AllocError> {
    let mut list = Vec::new(rt.alloc());
    list.push(((Name::Key(20), 1), 3))?;
    list.push(((Name::End, 2), 5))?;
    let triples = Triples::from_vec(list);
    assert_eq!(rt; triples.as_slice().len(), 2);
    assert!(rt; triples.as_slice()[0] == ((Name::Key(20), 1), 3));
    let list = triples.into_vec();
    assert_eq!(rt; list.len(), 2);
    assert!(rt; list[1] == ((Name::End, 2), 5));
    Ok(())
}
