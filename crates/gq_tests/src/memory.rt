//! Each growth where there is memory, and, where that can be asked for, so much of it that it is refused.

use bytes::Bytes;
use gq_memory::*;
use indexmap::IndexSet;
use slab::Slab;
use std::alloc::Global;
use std::process::Abort;
use std::test::Fail;

// More values than fit in any memory. (It is passed to what asks for so many, so that no proof makes a list of that length.)
const TOO_MANY: usize = usize::MAX;

fn is_refused<T: Drop>(rt: &impl Abort, grown: Result<T, OutOfMemory>) {
    assert!(rt; grown.is_err());
}

fn refuses_room(rt: &impl Abort, alloc: Global, count: usize) {
    is_refused(rt, room_for::<u64>(alloc, count));
    is_refused(rt, filled(alloc, 7u64, count));
}

#[test]
fn a_new_vector_has_room(rt: HostRuntime) -> Result<(), Fail> {
    let room: Vec<u64> = room_for(rt.alloc(), 3)?;
    assert!(rt; room.is_empty() && room.capacity() >= 3);
    let sevens = filled(rt.alloc(), 7u64, 3)?;
    assert!(rt; sevens.as_slice() == [7, 7, 7].as_slice());
    refuses_room(&rt, rt.alloc(), TOO_MANY);
    Ok(())
}

#[test]
fn copies_a_slice(rt: HostRuntime) -> Result<(), Fail> {
    let numbers = slice_copied(rt.alloc(), &[1u32, 2, 3])?;
    assert!(rt; numbers.as_slice() == [1, 2, 3].as_slice());
    assert!(rt; numbers.same_items()?.as_slice() == numbers.as_slice());
    Ok(())
}

#[test]
fn appends_one_by_one(rt: HostRuntime) -> Result<(), Fail> {
    let mut numbers = Vec::new(rt.alloc());
    numbers.grow(7u32)?;
    assert!(rt; numbers.grow_place(8)? == 1);
    numbers.grow_length(b"abc")?;
    assert!(rt; numbers.as_slice() == [7, 8, 3].as_slice());
    Ok(())
}

#[test]
fn appends_many(rt: HostRuntime) -> Result<(), Fail> {
    let mut numbers = Vec::new(rt.alloc());
    numbers.grow_by(&[3u32, 1, 2])?;
    numbers.grow_to(4, 0)?;
    assert!(rt; numbers.as_slice() == [3, 1, 2, 0].as_slice());
    numbers.grow_to(3, 0)?;
    numbers.sort_items()?;
    assert!(rt; numbers.as_slice() == [1, 2, 3].as_slice());
    Ok(())
}

fn refuses_more(rt: &impl Abort, numbers: &mut Vec<u64>, count: usize) {
    is_refused(rt, numbers.make_room(count));
    is_refused(rt, numbers.grow_to(count, 7));
}

#[test]
fn keeps_what_it_has_where_more_is_refused(rt: HostRuntime) -> Result<(), Fail> {
    let mut numbers = Vec::new(rt.alloc());
    numbers.make_room(2)?;
    assert!(rt; numbers.capacity() >= 2);
    numbers.grow(7u64)?;
    refuses_more(&rt, &mut numbers, TOO_MANY);
    assert!(rt; numbers.as_slice() == [7].as_slice());
    Ok(())
}

#[test]
fn shares_bytes(rt: HostRuntime) -> Result<(), Fail> {
    let bytes = copied_bytes(rt.alloc(), b"abc")?;
    assert!(rt; bytes == Bytes::from_static(b"abc"));
    assert!(rt; bytes.share()? == bytes);
    assert!(rt; bytes_of(slice_copied(rt.alloc(), b"abc")?)? == bytes);
    Ok(())
}

#[test]
fn boxes_a_value(rt: HostRuntime) -> Result<(), Fail> {
    assert!(rt; *boxed(rt.alloc(), 7u32)? == 7);
    Ok(())
}

// What is told of a refused growth, and of what is told of it once more.
fn told_twice(alloc: Global, refused: &OutOfMemory) -> Result<String, Fail> {
    let again = refused.again();
    Ok(format!(in alloc; "{refused}, {again}")?)
}

fn tells_twice(rt: &impl Abort, alloc: Global, count: usize) -> Result<(), Fail> {
    match room_for::<u64>(alloc, count) {
        Ok(_) => panic!(rt; "not refused"),
        Err(refused) => {
            let told = told_twice(alloc, &refused)?;
            assert!(rt; told.as_str() == "out of memory, out of memory");
            Ok(())
        }
    }
}

#[test]
fn tells_a_refused_growth_again(rt: HostRuntime) -> Result<(), Fail> {
    tells_twice(&rt, rt.alloc(), TOO_MANY)
}

#[test]
fn sends_to_a_channel(rt: HostRuntime) -> Result<(), Fail> {
    let (to, from) = channel(rt.alloc())?;
    send(&rt, &to, 7u32)?;
    send(&rt, &sender_copied(&to)?, 8)?;
    assert!(rt; from.recv(&rt)? == 7);
    assert!(rt; from.recv(&rt)? == 8);
    Ok(())
}

#[test]
fn sends_one_to_a_channel_of_one(rt: HostRuntime) -> Result<(), Fail> {
    let (to, from) = channel_of_one(rt.alloc())?;
    send(&rt, &to, 7u32)?;
    assert!(rt; from.is_full());
    assert!(rt; from.recv(&rt)? == 7);
    Ok(())
}

#[test]
fn adds_to_a_set(rt: HostRuntime) -> Result<(), Fail> {
    let mut set: IndexSet<u128> = IndexSet::new(rt.alloc());
    assert!(rt; GrowIndexSet::grow(&mut set, 7)?);
    assert!(rt; !GrowIndexSet::grow(&mut set, 7)?);
    let copy = set_copied(&set)?;
    assert!(rt; copy.len() == 1 && copy.contains(&7));
    Ok(())
}

#[test]
fn makes_places_in_a_slab(rt: HostRuntime) -> Result<(), Fail> {
    let mut slab = Slab::new(rt.alloc());
    let place = slab.make_place()?;
    assert!(rt; place == 0 && slab.capacity() >= 1);
    slab.insert_reserved(7u32);
    assert!(rt; slab.make_place()? == 1);
    Ok(())
}
