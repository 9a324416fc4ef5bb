//! Each call once with ample memory, and how the cost of learning grows.
ghost use Rattle.std.specs.Prelude.{◌≡◌, ◌+◌, ◌<◌, length, IfOk, OnOk, IsSome, slice_index_or};

use kr_model::{Event, Op, Reply};
use kr_records::{EngineName, Entry, Known, NewFault, PlaceRow, Seen, Watch};
use std::alloc::{AllocError, Global};
use std::marker::Brand;
use std::process::Abort;
use std::test::Fail;

/// Writes a place, by this seat, and tells what stands there.
fn write(
    alloc: Global,
    row: &PlaceRow,
    place: usize,
    seat: usize,
) -> Result<Known<Entry>, AllocError>
    requires { place < length row.now }
    ensures cell { IfOk result (λ n. n.cell ≡ slice_index_or row.now place 0) }
    ensures known { IfOk result (λ n. IsSome n.known) }
{
    let Ok(made) = Box::new(
        alloc,
        Entry {
            seat,
            event: Event { txn: 1, op: Op::Go },
            reply: Reply::Done,
        },
    ) else {
        return Err(AllocError);
    };
    let mut note = row.cell(place).note();
    match row.cell(place).set_as(made, &mut note) {
        Ok(()) => Ok(Known::of(&mut note)),
        Err(_) => Err(AllocError),
    }
}

/// Writes the next place, which is added to what is known.
fn add<K: EngineName>(
    alloc: Global,
    row: &PlaceRow,
    seen: &mut Seen<K>,
    seat: usize,
) -> Result<(), AllocError>
    requires row { row.now ≡ K.places }
    requires room { length seen.old < length K.places }
    ensures { OnOk result (length seen.new ≡ length seen.old + 1) }
{
    let note = write(alloc, row, seen.len(), seat)?;
    seen.add(note);
    Ok(())
}

/// By which seat the entry is that a watch shows.
fn seat_at<K: EngineName>(watch: &mut Watch<'_, K>, place: usize) -> Option<usize> {
    match watch.entry(place) {
        Some(entry) => Some(entry.seat),
        None => None,
    }
}

#[test]
fn rows(rt: HostRuntime) -> Result<(), Fail> {
    let alloc = rt.alloc();
    assert!(rt; matches!(PlaceRow::new(alloc, 0), Err(NewFault::Places)));
    assert!(rt; matches!(PlaceRow::new(alloc, 1_000_001), Err(NewFault::Places)));
    for places in [1, 3, 1000] {
        let row = PlaceRow::new(alloc, places).ok().ok_or("row")?;
        assert_eq!(rt; row.len() as u64, places);
    }
    Ok(())
}

#[test]
fn three_places(rt: HostRuntime) -> Result<(), Fail> {
    let row = PlaceRow::new(rt.alloc(), 3).ok().ok_or("row")?;
    three_places_of::<Brand, _>(&rt, rt.alloc(), row)
}

fn three_places_of<K: EngineName, R: Abort>(
    rt: &R,
    alloc: Global,
    row: PlaceRow,
) -> Result<(), Fail>
    requires { row ≡ K.places }
{
    let mut early = Watch::<K>::new(alloc, &row)?;
    let mut seen = Seen::<K>::new(&row);
    assert!(rt; row.len() == 3);
    assert_eq!(rt; seen.len(), 0);
    assert_eq!(rt; seat_at(&mut early, 0), None);
    add(alloc, &row, &mut seen, 5)?;
    add(alloc, &row, &mut seen, 6)?;
    assert_eq!(rt; seen.len(), 2);

    let mut other = Seen::<K>::new(&row);
    other.lemma_is_prefix_of(&seen);
    other.learn(&seen);
    assert_eq!(rt; other.len(), 2);
    let mut told = Watch::of(alloc, &row, &other)?;
    for (place, seat) in [(0, Some(5)), (1, Some(6)), (2, None), (3, None), (9, None)] {
        assert_eq!(rt; seat_at(&mut told, place), seat);
        assert_eq!(rt; seat_at(&mut early, place), seat);
    }
    early.meet(&told);
    Ok(())
}

/// A seat that learns after each of 100,000 steps: a call that went over the places would not end here.
#[test]
fn many_places(rt: HostRuntime) -> Result<(), Fail> {
    let row = PlaceRow::new(rt.alloc(), 100_000).ok().ok_or("row")?;
    many_places_of::<Brand, _>(&rt, rt.alloc(), row)
}

fn many_places_of<K: EngineName, R: Abort>(rt: &R, alloc: Global, row: PlaceRow) -> Result<(), Fail>
    requires { row ≡ K.places }
{
    let mut seen = Seen::<K>::new(&row);
    let mut seat = Seen::<K>::new(&row);
    for place in 0..row.len() {
        add(alloc, &row, &mut seen, place)?;
        seat.lemma_is_prefix_of(&seen);
        seat.learn(&seen);
    }
    assert_eq!(rt; seat.len(), 100_000);
    Ok(())
}
