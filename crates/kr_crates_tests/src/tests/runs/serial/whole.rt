//! Operations run whole on a map.

use kr_model::Op;
use kr_script::write_reply;
use kr_serial::{answer, follow, map_of};
use std::alloc::AllocError;

#[test]
fn operations_run_whole_answer_and_change_the_map(rt: HostRuntime) -> Result<(), AllocError> {
    let mut map = map_of(rt.alloc(), &[(10, 1), (20, 2), (30, 3)])?;
    let steps = [
        (Op::Scan(15, 30), r#"["rows",[[20,2],[30,3]]]"#),
        (Op::Fetch(20), r#"["found",2]"#),
        (Op::Delete(20), r#"["deleted",2]"#),
        (Op::Delete(20), r#"["absent"]"#),
        (Op::Insert(20, 5), r#"["done"]"#),
        (Op::Insert(20, 6), r#"["duplicate"]"#),
        (Op::Update(20, 7), r#"["updated",5]"#),
        (Op::Update(15, 7), r#"["absent"]"#),
        (Op::Fetch(20), r#"["found",7]"#),
        (Op::Fetch(15), r#"["none"]"#),
    ];
    for (op, wanted) in &steps {
        let given = answer(rt.alloc(), &map, *op)?;
        let mut text = String::new(rt.alloc());
        write_reply(&mut text, &given)?;
        assert_eq!(rt; text.as_str(), *wanted);
        follow(&mut map, *op, &given)?;
    }
    assert_eq!(rt; map.len(), 3);
    Ok(())
}
