//! A pool of three blocks; the longest content, which takes 16,384; that pools and chains may go to another thread.
ghost use Rattle.std.specs.Prelude.{◌≡◌, ◌+◌, ◌*◌, ◌<◌, length};
ghost use Rattle.gq_pool.specs.Blocks.{blocks_for};

use gq_memory::filled;
use gq_pool::{Chain, Pool};
use gq_tag::BLOCK_BYTES;
use std::marker::Send;
use std::process::Abort;
use std::test::Fail;

fn crosses<T: Send>(value: T) -> T
    ensures { result ≡ value }
{
    value
}

fn chain_of(rt: &impl Abort, pool: &mut Pool, bytes: &[u8]) -> Chain
    ensures filled { result ≡ bytes.now }
    ensures taken { pool.new + blocks_for (length bytes.now) ≡ pool.old }
{
    match pool.fill(bytes) {
        Ok(chain) => crosses(chain),
        Err(short) => panic!(rt; "{short}"),
    }
}

// The bytes are too many for the blocks that are free.
fn is_short(rt: &impl Abort, pool: &mut Pool, bytes: &[u8], free: usize)
    requires { pool.old < 4 }
    ensures { pool.new ≡ pool.old }
{
    match pool.fill(bytes) {
        Err(short) => assert!(rt; short.free == free && pool.free() == free),
        Ok(chain) => {
            pool.drain(chain);
            panic!(rt; "not short");
        }
    }
}

fn fills_and_drains(rt: &impl Abort, pool: &mut Pool)
    requires { pool.old ≡ 3 }
    ensures { pool.new ≡ 3 }
{
    let first = chain_of(rt, pool, &[97; 65]);
    assert!(rt; first.len() == 65 && first.blocks() == 2);
    is_short(rt, pool, &[97; 65], 1);
    let none = chain_of(rt, pool, &[]);
    assert!(rt; none.blocks() == 0 && pool.free() == 1);
    pool.drain(first);
    assert!(rt; pool.free() == 3);
    let text = chain_of(rt, pool, b"abc");
    let mut out = [0; 3];
    text.read(&mut out);
    assert!(rt; out == *b"abc");
    is_short(rt, pool, &[0; 192], 2);
    pool.drain(none);
    pool.drain(text);
}

#[test]
fn a_pool_of_three_blocks(rt: HostRuntime) -> Result<(), Fail> {
    let mut pool = crosses(Pool::new(rt.alloc(), 3)?);
    assert!(rt; pool.free() == 3);
    fills_and_drains(&rt, &mut pool);
    assert!(rt; pool.free() == 3);
    pool.close();
    Ok(())
}

fn copies(rt: &impl Abort, pool: &mut Pool)
    requires { pool.old ≡ 7 }
    ensures { pool.new ≡ 7 }
{
    let mut bytes = [97; 150];
    bytes[64] = 98;
    bytes[149] = 99;
    let chain = chain_of(rt, pool, &bytes);
    let copy = pool.copy(&chain);
    assert!(rt; copy.len() == 150 && copy.blocks() == 3 && pool.free() == 1);
    pool.drain(chain);
    let mut out = [0; 150];
    copy.read(&mut out);
    assert!(rt; out == bytes);
    pool.drain(copy);
}

#[test]
fn a_chain_is_copied(rt: HostRuntime) -> Result<(), Fail> {
    let mut pool = Pool::new(rt.alloc(), 7)?;
    copies(&rt, &mut pool);
    assert!(rt; pool.free() == 7);
    pool.close();
    Ok(())
}

// The blocks that a content of 1 MiB takes.
const LONG: usize = 16_384;

// Writes at the start of each block of the bytes which block it is.
fn number_blocks(bytes: &mut [u8]) {
    for block in 0..bytes.len() / BLOCK_BYTES {
        let start = block * BLOCK_BYTES;
        bytes[start] = (block % 256) as u8;
        bytes[start + 1] = (block / 256 % 256) as u8;
    }
}

// Of the blocks, one is left.
fn fills_long(rt: &impl Abort, pool: &mut Pool, bytes: &[u8], out: &mut [u8])
    requires many { pool.old ≡ LONG + 1 }
    requires long { length bytes.now + 1 ≡ LONG * BLOCK_BYTES }
    requires same { length out.old ≡ length bytes.now }
    ensures { pool.new ≡ LONG + 1 }
{
    let chain = chain_of(rt, pool, bytes);
    assert!(rt; chain.len() == bytes.len() && chain.blocks() == LONG);
    is_short(rt, pool, &[97; 65], 1);
    chain.read(out);
    assert!(rt; &*out == bytes);
    pool.drain(chain);
}

#[test]
fn a_content_of_a_mebibyte_less_a_byte(rt: HostRuntime) -> Result<(), Fail> {
    let mut bytes = filled(rt.alloc(), 0, LONG * BLOCK_BYTES - 1)?;
    let mut out = filled(rt.alloc(), 0, LONG * BLOCK_BYTES - 1)?;
    number_blocks(bytes.as_mut_slice());
    let mut pool = Pool::new(rt.alloc(), LONG + 1)?;
    fills_long(&rt, &mut pool, bytes.as_slice(), out.as_mut_slice());
    assert!(rt; pool.free() == LONG + 1);
    pool.close();
    Ok(())
}
