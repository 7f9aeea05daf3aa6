//! Chunks of a tenant over a shelf in memory: each call where memory and the shelf refuse nothing. Bytes as a word of a line.

use bytes::Bytes;
use gq_memory::{GrowBytes, filled};
use gq_quote::{put_quoted, read_quoted};
use gq_shelf::{Extent, MemoryShelf, Place, Shelf};
use gq_stock::{
    CHUNK_CHARGE, Chunk, Found, Keeping, MOST_FRESH, MOST_FRESH_BYTES, Run, Session, Source, Stock,
};
use std::alloc::Global;
use std::process::Abort;
use std::test::Fail;

// One byte more than a content in memory has.
const LONG: usize = 262_145;

// Room for two chunks of twelve bytes together.
const ROOM: u64 = 12 + 2 * CHUNK_CHARGE;

fn content(rt: &impl Abort, alloc: Global, text: &str) -> Bytes {
    match Bytes::copy_from_slice(alloc, text.as_bytes()) {
        Ok(bytes) => bytes,
        Err(_) => panic!(rt; "out of memory"),
    }
}

fn sevens(alloc: Global, count: usize) -> Result<Bytes, Fail> {
    let bytes = filled(alloc, 7u8, count)?;
    Ok(Bytes::copy_from_slice(alloc, bytes.as_slice())?)
}

fn keeps<S: Shelf>(
    rt: &impl Abort,
    stock: &mut Stock,
    shelf: &mut S,
    number: u64,
    bytes: Bytes,
    as_told: Keeping,
) {
    assert!(rt; stock.sessions.len() == 1 && bytes.len() < 1_000_000);
    match stock.keep(shelf, 0, number, bytes, true) {
        Ok(told) => assert!(rt; told == as_told),
        Err(_) => panic!(rt; "not kept"),
    }
}

fn is_found<S: Shelf>(session: &Session, shelf: &mut S, number: u64, text: &str) -> bool {
    match session.find(shelf, number) {
        Ok(Found::There(bytes)) => bytes.as_slice() == text.as_bytes(),
        _ => false,
    }
}

fn is_damaged<S: Shelf>(session: &Session, shelf: &mut S, number: u64) -> bool {
    matches!(session.find(shelf, number), Ok(Found::Damaged))
}

fn is_nothing<S: Shelf>(session: &Session, shelf: &mut S, number: u64) -> bool {
    matches!(session.find(shelf, number), Ok(Found::Nothing))
}

// A content is kept once, within what is free, and above the floor. Each is charged its bytes, and as many more.
fn keeps_contents<S: Shelf>(rt: &impl Abort, alloc: Global, stock: &mut Stock, shelf: &mut S) {
    keeps(
        rt,
        stock,
        shelf,
        1,
        content(rt, alloc, "hello"),
        Keeping::New,
    );
    keeps(
        rt,
        stock,
        shelf,
        1,
        content(rt, alloc, "hello"),
        Keeping::Same,
    );
    keeps(
        rt,
        stock,
        shelf,
        1,
        content(rt, alloc, "other"),
        Keeping::Differs,
    );
    keeps(
        rt,
        stock,
        shelf,
        0,
        content(rt, alloc, "hello"),
        Keeping::Below,
    );
    keeps(
        rt,
        stock,
        shelf,
        2,
        content(rt, alloc, "eight by"),
        Keeping::Full,
    );
    keeps(
        rt,
        stock,
        shelf,
        2,
        content(rt, alloc, "seven b"),
        Keeping::New,
    );
    assert!(rt; stock.used() == ROOM && stock.free() == 0);
}

// Contents go to the shelf, are given by a peer, and are forgotten.
fn moves_contents<S: Shelf>(rt: &impl Abort, alloc: Global, session: &mut Session, shelf: &mut S) {
    assert!(rt; matches!(session.shelve(shelf, 1, &Source::Shelf), Ok(true)));
    assert!(rt; matches!(session.shelve(shelf, 9, &Source::Shelf), Ok(false)));
    assert!(rt;
        matches!(
            session.get(1),
            Some(Chunk {
                place: Place::Shelved(_),
                ..
            })
        )
    );
    assert!(rt; is_found(session, shelf, 1, "hello") && is_found(session, shelf, 2, "seven b"));
    let given = content(rt, alloc, "given");
    assert!(rt; given.len() < 1_000_000);
    assert!(rt; matches!(session.give(shelf, 4, given, MOST_FRESH_BYTES), Ok(true)));
    let elsewhere = Place::Shelved(Extent {
        segment: 1,
        at: 0,
        len: 5,
        sum: 0,
    });
    assert!(rt;
        matches!(
            session.put(
                6,
                Chunk {
                    place: elsewhere,
                    is_sure: false
                }
            ),
            Ok(true)
        )
    );
    assert!(rt;
        is_damaged(session, shelf, 6)
            && session.count() == 4
            && session.used() == 22 + 4 * CHUNK_CHARGE
    );
    session.forget(4, &[Run { first: 2, last: 4 }]);
    assert!(rt; is_nothing(session, shelf, 4) && session.floor() == 4);
    assert!(rt; matches!(session.after(1), Some((6, _))) && session.after(6).is_none());
}

// Where "other" lies on a shelf that is lost.
fn lost_extent(rt: &impl Abort, alloc: Global) -> Extent {
    let mut shelf = MemoryShelf::new(alloc);
    match Place::put(&mut shelf, b"other") {
        Ok(Place::Shelved(extent)) => Extent {
            segment: 9,
            at: extent.at,
            len: extent.len,
            sum: extent.sum,
        },
        _ => panic!(rt; "not put"),
    }
}

// A damaged chunk is mended by the bytes that were put there, and by no others; one that can be read stays where it lies.
fn mends_a_chunk<S: Shelf>(rt: &impl Abort, alloc: Global, session: &mut Session, shelf: &mut S) {
    assert!(rt; matches!(session.check(shelf, 8), Ok(true)));
    assert!(rt; matches!(session.check(shelf, 9), Ok(false)));
    assert!(rt; matches!(session.shelve(shelf, 8, &Source::Shelf), Ok(false)));
    let others = Source::Peer(content(rt, alloc, "later"));
    assert!(rt; matches!(session.shelve(shelf, 8, &others), Ok(false)));
    assert!(rt; is_damaged(session, shelf, 8));
    let same = Source::Peer(content(rt, alloc, "other"));
    assert!(rt; matches!(session.shelve(shelf, 8, &same), Ok(true)));
    assert!(rt; is_found(session, shelf, 8, "other"));
    assert!(rt; matches!(session.check(shelf, 8), Ok(false)));
    assert!(rt; matches!(session.shelve(shelf, 8, &same), Ok(false)));
}

#[test]
fn a_damaged_chunk_is_mended(rt: HostRuntime) {
    let alloc = rt.alloc();
    let mut shelf = MemoryShelf::new(alloc);
    let mut session = Session::new(alloc);
    let lost = Chunk {
        place: Place::Shelved(lost_extent(&rt, alloc)),
        is_sure: true,
    };
    assert!(&rt; matches!(session.put(8, lost), Ok(true)));
    mends_a_chunk(&rt, alloc, &mut session, &mut shelf);
}

#[test]
fn chunks_are_kept_moved_and_forgotten(rt: HostRuntime) -> Result<(), Fail> {
    let alloc = rt.alloc();
    let mut shelf = MemoryShelf::new(alloc);
    let mut stock = Stock::new(alloc, 1, ROOM)?;
    keeps_contents(&rt, alloc, &mut stock, &mut shelf);
    assert!(rt; stock.sessions.len() == 1);
    let used = stock.used();
    assert!(rt; matches!(stock.shelve(&mut shelf, 0, 2, &Source::Shelf), Ok(true)));
    assert!(rt; matches!(stock.shelve(&mut shelf, 0, 9, &Source::Shelf), Ok(false)));
    assert!(rt; stock.used() == used && stock.sessions.len() == 1);
    moves_contents(&rt, alloc, &mut stock.sessions[0], &mut shelf);
    keeps(
        &rt,
        &mut stock,
        &mut shelf,
        6,
        content(&rt, alloc, "hello"),
        Keeping::Damaged,
    );
    Ok(())
}

#[test]
fn a_long_content_lies_on_the_shelf(rt: HostRuntime) -> Result<(), Fail> {
    let alloc = rt.alloc();
    let mut shelf = MemoryShelf::new(alloc);
    let mut stock = Stock::new(alloc, 1, 1_000_000)?;
    keeps(
        &rt,
        &mut stock,
        &mut shelf,
        1,
        sevens(alloc, LONG)?,
        Keeping::New,
    );
    assert!(rt; stock.sessions.len() == 1);
    assert!(rt;
        matches!(
            stock.sessions[0].get(1),
            Some(Chunk {
                place: Place::Shelved(_),
                ..
            })
        )
    );
    Ok(())
}

fn is_in_memory(session: &Session, number: u64) -> bool {
    matches!(
        session.get(number),
        Some(Chunk {
            place: Place::Fresh(_),
            ..
        })
    )
}

#[test]
fn short_contents_lie_on_the_shelf_where_memory_has_enough(rt: HostRuntime) -> Result<(), Fail> {
    let alloc = rt.alloc();
    let mut shelf = MemoryShelf::new(alloc);
    let mut stock = Stock::new(alloc, 1, 100_000_000)?;
    let short = sevens(alloc, MOST_FRESH)?;
    for number in 1..=256u64 {
        let content = short.share()?;
        keeps(&rt, &mut stock, &mut shelf, number, content, Keeping::New);
    }
    assert!(&rt; stock.fresh() == MOST_FRESH_BYTES && stock.sessions.len() == 1);
    assert!(&rt; is_in_memory(&stock.sessions[0], 256));
    keeps(
        &rt,
        &mut stock,
        &mut shelf,
        257,
        sevens(alloc, 1)?,
        Keeping::New,
    );
    assert!(&rt; stock.sessions.len() == 1 && !is_in_memory(&stock.sessions[0], 257));
    stock.sessions[0].forget(1, &[Run { first: 1, last: 1 }]);
    keeps(&rt, &mut stock, &mut shelf, 258, short, Keeping::New);
    assert!(&rt; stock.sessions.len() == 1 && is_in_memory(&stock.sessions[0], 258));
    Ok(())
}

#[test]
fn bytes_are_quoted(rt: HostRuntime) -> Result<(), Fail> {
    let alloc = rt.alloc();
    let mut out = Vec::new(alloc);
    put_quoted(&mut out, b"a b\n\\c")?;
    assert!(rt; out.as_slice() == b"a\\040b\\n\\\\c".as_slice());
    let read = read_quoted(alloc, out.as_slice())?;
    assert!(rt; matches!(&read, Some(bytes) if bytes.as_slice() == b"a b\n\\c".as_slice()));
    assert!(rt; read_quoted(alloc, b"\\041")?.is_none());
    Ok(())
}
