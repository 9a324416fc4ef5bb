//! Two modes of which the order matters, looked at by every call.
ghost use Rattle.std.specs.Prelude.{◌≡◌, length, IfOk};

use kr_table::{Mode, Modes};
use std::alloc::{AllocError, Global};
use std::test::Fail;

/// The modes `A` and `B`: a request for `A` is compatible with both, one for `B` with none, and the
/// mode that is requested last is held.
fn two_modes(alloc: Global) -> Result<Modes, AllocError>
    ensures { IfOk result (λ modes. length modes.names ≡ 2) }
{
    let mut names = Vec::new(alloc);
    names.push(String::from_str(alloc, "A")?)?;
    names.push(String::from_str(alloc, "B")?)?;
    let ok = vec![in alloc; true, true, false, false]?;
    let convert = vec![in alloc; 1, 2, 1, 2]?;
    Ok(Modes::new(names, ok, convert))
}

#[test]
fn stand_beside_each_other(rt: HostRuntime) -> Result<(), Fail> {
    let modes = two_modes(rt.alloc())?;
    let beside = [[true, true, true], [true, true, true], [true, false, false]];
    for requested in 0..3_u8 {
        for held in 0..3_u8 {
            let wanted = beside[requested as usize][held as usize];
            same!(rt;
                modes.ok(requested, held),
                wanted,
                (requested, held)
            );
        }
    }
    Ok(())
}

#[test]
fn convert_to_one_mode(rt: HostRuntime) -> Result<(), Fail> {
    let modes = two_modes(rt.alloc())?;
    let converted: [[Mode; 3]; 3] = [[0, 1, 2], [1, 1, 2], [2, 1, 2]];
    for held in 0..3_u8 {
        for requested in 0..3_u8 {
            let wanted = converted[held as usize][requested as usize];
            same!(rt;
                modes.convert(held, requested),
                wanted,
                (held, requested)
            );
        }
    }
    Ok(())
}

#[test]
fn bear_names(rt: HostRuntime) -> Result<(), Fail> {
    let modes = two_modes(rt.alloc())?;
    same!(rt; modes.count(), 2);
    for (mode, name) in [(0_u8, "none"), (1, "A"), (2, "B")] {
        assert!(rt; mode <= modes.count());
        same!(rt; modes.name(mode), name);
    }
    for (name, mode) in [
        ("A", Some(1_u8)),
        ("B", Some(2)),
        ("none", None),
        ("AB", None),
        ("", None),
    ] {
        same!(rt; modes.find(name), mode, name);
    }
    Ok(())
}

#[test]
fn are_given_back(rt: HostRuntime) -> Result<(), Fail> {
    let modes = two_modes(rt.alloc())?;
    same!(rt; modes.compatible(), [true, true, false, false].as_slice());
    same!(rt; modes.conversion(), [1_u8, 2, 1, 2].as_slice());
    let mut names = modes.names().iter();
    assert!(rt; names.next().is_some_and(|name| name.as_str() == "A"));
    assert!(rt; names.next().is_some_and(|name| name.as_str() == "B"));
    assert!(rt; names.next().is_none());
    Ok(())
}
