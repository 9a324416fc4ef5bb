//! Whether a reply is the one that was observed.
use crate::tests::trace::given::Given;
use kr_model::{Pairs, Refusal, Reply, Txns};
use kr_trace_lines::fits;
use std::test::Fail;

#[test]
fn fits_as_far_as_given(rt: HostRuntime) -> Result<(), Fail> {
    let alloc = rt.alloc();
    let rows = Reply::Rows(Pairs::from_vec(vec![in alloc; (1, 2), (3, 4)]?));
    let blocked = Reply::Blocked(Txns::from_vec(vec![in alloc; 7]?));
    assert!(rt; fits(&rows, &Given::Rows(&[(1, 2), (3, 4)]).observed(alloc)?));
    assert!(rt; !fits(&rows, &Given::Rows(&[(1, 2)]).observed(alloc)?));
    assert!(rt; !fits(&rows, &Given::Rows(&[(1, 2), (3, 5)]).observed(alloc)?));
    assert!(rt; fits(&blocked, &Given::Blocked(&[]).observed(alloc)?));
    assert!(rt; !fits(&blocked, &Given::None.observed(alloc)?));
    assert!(rt; fits(&Reply::Deleted(5), &Given::Deleted(None).observed(alloc)?));
    assert!(rt;
        fits(
            &Reply::Deleted(5),
            &Given::Deleted(Some(5)).observed(alloc)?
        )
    );
    assert!(rt;
        !fits(
            &Reply::Deleted(5),
            &Given::Deleted(Some(6)).observed(alloc)?
        )
    );
    assert!(rt;
        !fits(
            &Reply::Deleted(5),
            &Given::Updated(Some(5)).observed(alloc)?
        )
    );
    assert!(rt; fits(&Reply::Undone(0), &Given::Undone(None).observed(alloc)?));
    assert!(rt; !fits(&Reply::Undone(0), &Given::Undone(Some(1)).observed(alloc)?));
    assert!(rt;
        !fits(
            &Reply::Refused(Refusal::Busy),
            &Given::Blocked(&[]).observed(alloc)?
        )
    );
    Ok(())
}
