//! Channels side by side.
ghost use Rattle.std.specs.Prelude.{◌≡◌, ◌<◌, length};

use bytes::Bytes;
use gq_post::Post;
use gq_tag::{Body, FileId, Message, StoredCopy, Tag};
use std::alloc::Global;
use std::process::Abort;
use std::test::Fail;

// A message that is known by the number of its operation.
fn message(tenant: u8, op: u32) -> Message {
    Message {
        tenant,
        session: 1,
        op,
        round: 1,
        server: 0,
        file: FileId {
            tenant,
            volume: 0,
            file: 0,
        },
        body: Body::Ask,
    }
}

fn send(rt: &impl Abort, post: &mut Post, tenant: u8, op: u32)
    requires { length post.old ≡ 2 }
    ensures { length post.new ≡ 2 }
{
    assert!(rt; tenant < 2 && post.sent(tenant) == u64::from(op));
    assert!(rt; post.send(tenant, message(tenant, op)).ok() == Some(u64::from(op)));
}

// Sends a message of each tenant, and loses both where the number is odd.
fn send_both(rt: &impl Abort, post: &mut Post, number: u32)
    requires { length post.old ≡ 2 }
    ensures { length post.new ≡ 2 }
{
    send(rt, post, 0, number);
    send(rt, post, 1, number);
    if number % 2 == 1 {
        assert!(rt; post.lose(0, u64::from(number)) && post.lose(1, u64::from(number)));
        assert!(rt; !post.lose(0, u64::from(number)));
    }
}

// Sends a message that brings a copy of this content, and wants it to get this number.
fn bring(rt: &impl Abort, post: &mut Post, tenant: u8, content: &'static [u8], number: u64)
    requires { length post.old ≡ 2 }
    ensures { length post.new ≡ 2 }
{
    assert!(rt; tenant < 2);
    let mut message = message(tenant, 1);
    message.body = Body::Store(StoredCopy {
        tag: Tag {
            number: 1,
            session: 1,
        },
        bytes: Bytes::from_static(content),
    });
    assert!(rt; post.send(tenant, message).ok() == Some(number));
}

// How the tenant's message of that number is shown.
fn seen(rt: &impl Abort, alloc: Global, post: &Post, tenant: u8, number: u64) -> String
    requires { (tenant < 2) × (length post.now ≡ 2) }
{
    format!(in alloc; "{:?}", post.get(tenant, number)).expect(rt, "memory")
}

// What is seen of a message of the tenant that brings this content.
fn brought(rt: &impl Abort, alloc: Global, tenant: u8, content: &str) -> String {
    format!(in alloc;
        "Some(MessageView {{ tenant: {tenant}, session: 1, op: 1, round: 1, server: 0, file: FileId {{ tenant: {tenant}, volume: 0, file: 0 }}, body: Store(StoredCopy {{ tag: Tag {{ number: 1, session: 1 }}, bytes: b\"{content}\" }}) }})"
    ).expect(rt, "memory")
}

// Whether the tenant's message of that number is one that brings this content.
fn brings(
    rt: &impl Abort,
    alloc: Global,
    post: &Post,
    tenant: u8,
    number: u64,
    content: &str,
) -> bool
    requires { (tenant < 2) × (length post.now ≡ 2) }
{
    seen(rt, alloc, post, tenant, number).as_str() == brought(rt, alloc, tenant, content).as_str()
}

// Which operation the tenant's message of that number is of.
fn op(post: &Post, tenant: u8, number: u32) -> Option<u32>
    requires { (tenant < 2) × (length post.now ≡ 2) }
{
    post.get(tenant, u64::from(number))
        .map(|message| message.op)
}

#[test]
fn numbers_each_tenants_messages_apart(rt: HostRuntime) -> Result<(), Fail> {
    let mut post = Post::new(rt.alloc(), 2)?;
    for number in 0..1000u32 {
        send_both(&rt, &mut post, number);
    }
    send(&rt, &mut post, 1, 1000);
    for number in 0..1000u32 {
        let held = if number % 2 == 0 { Some(number) } else { None };
        assert!(rt; op(&post, 0, number) == held && op(&post, 1, number) == held);
    }
    assert!(rt; op(&post, 0, 1000).is_none() && op(&post, 1, 1000) == Some(1000));
    Ok(())
}

#[test]
fn gives_a_lost_place_to_the_other_tenant(rt: HostRuntime) -> Result<(), Fail> {
    let alloc = rt.alloc();
    let mut post = Post::new(alloc, 2)?;
    bring(&rt, &mut post, 0, b"a", 0);
    bring(&rt, &mut post, 1, b"b", 0);
    assert!(rt; post.lose(0, 0) && post.get(0, 0).is_none());
    bring(&rt, &mut post, 1, b"c", 1);
    assert!(rt; brings(&rt, alloc, &post, 1, 0, "b") && brings(&rt, alloc, &post, 1, 1, "c"));
    assert!(rt; post.get(0, 0).is_none() && !post.lose(0, 0));
    bring(&rt, &mut post, 0, b"d", 1);
    assert!(rt; brings(&rt, alloc, &post, 0, 1, "d"));
    assert!(rt; post.get(1, 2).is_none() && !post.lose(1, 2));
    assert!(rt; post.sent(0) == 2 && post.sent(1) == 2);
    Ok(())
}
