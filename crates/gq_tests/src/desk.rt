//! Tenants of a plan and of its copy, and volumes inside shares. (Names and the faults of plans are pinned by contracts, and cases show them.)

ghost use Rattle.std.specs.Prelude.{◌≡◌, ◌<◌, length, IfOk};

use gq_desk::{Desk, Name, OpenRefused, Plan, PlanFault, TenantRow, VolumeRow};
use gq_grid::Grid;
use gq_memory::OutOfMemory;
use gq_tag::FileId;
use std::alloc::Global;
use std::process::Abort;
use std::test::Fail;

fn row(rt: &impl Abort, name: &[u8], share: u32) -> TenantRow {
    TenantRow {
        name: Name::new(name).expect(rt, "a name"),
        share,
        sessions: 1,
        steps: 1,
        most_blocks: 16,
        most_volumes: 64,
    }
}

// The plan of these rows on one server of 4 blocks. One clause alone, so that a test's proof stays short.
fn plan_of(rt: &impl Abort, alloc: Global, rows: &[TenantRow]) -> Result<Plan, PlanFault>
    ensures { IfOk result (λ plan. plan.rows ≡ rows.now) }
{
    let grid = Grid::new(1, 1).expect(rt, "a grid");
    Plan::check(alloc, grid, 4, rows)
}

// The place of the tenant of that name.
fn place_of(rt: &impl Abort, plan: &Plan, name: &[u8]) -> Option<u8> {
    plan.find(&Name::new(name).expect(rt, "a name"))
}

// The plan has ann with one block and bob with three.
fn has_ann_and_bob(rt: &impl Abort, plan: &Plan) {
    assert!(rt; plan.find_word(b"bob") == Some(1) && plan.find_word(b"bo").is_none());
    assert!(rt; place_of(rt, plan, b"bob") == Some(1) && place_of(rt, plan, b"eve").is_none());
    assert!(rt; plan.tenants() == 2 && plan.blocks() == 4);
    assert!(rt; plan.row(1).share == 3);
}

fn has_ann_and_bob_also_in_a_copy(rt: &impl Abort, plan: &Plan) {
    has_ann_and_bob(rt, plan);
    match plan.copy() {
        Ok(copy) => has_ann_and_bob(rt, &copy),
        Err(_) => panic!(rt; "memory"),
    }
}

#[test]
fn finds_tenants_by_name_also_in_a_copy(rt: HostRuntime) {
    let rows = [row(&rt, b"ann", 1), row(&rt, b"bob", 3)];
    match plan_of(&rt, rt.alloc(), &rows) {
        Ok(plan) => has_ann_and_bob_also_in_a_copy(&rt, &plan),
        Err(fault) => panic!(rt; "{fault}"),
    }
}

// The desk of ann with a share of 3 blocks and bob with one.
fn desk_of_two(rt: &impl Abort, alloc: Global) -> Result<Desk, OutOfMemory>
    ensures { IfOk result (λ desk. length desk ≡ 2) }
{
    let rows = [row(rt, b"ann", 3), row(rt, b"bob", 1)];
    match plan_of(rt, alloc, &rows) {
        Ok(plan) => Desk::new(alloc, &plan),
        Err(_) => panic!(rt; "no plan"),
    }
}

// Opens a volume, of which the caller keeps only how many tenants there are.
fn open(desk: &mut Desk, tenant: u8, files: u32, blocks: u32) -> Result<u32, OpenRefused>
    requires { tenant < length desk.old }
    ensures { length desk.new ≡ length desk.old }
{
    desk.open_volume(tenant, files, blocks)
}

fn has_two_full_shares(rt: &impl Abort, desk: &Desk)
    requires { length desk.now ≡ 2 }
{
    assert!(rt; desk.free(0) == 0 && desk.free(1) == 0);
    assert!(rt; desk.volumes(0).len() == 2);
    assert!(rt;
        desk.volumes(1)
            == [VolumeRow {
                files: 1,
                blocks: 1
            }]
            .as_slice()
    );
}

fn opens_inside_each_share(rt: &impl Abort, desk: &mut Desk)
    requires { length desk.old ≡ 2 }
{
    assert!(rt; matches!(open(desk, 1, 2, 1), Err(OpenRefused::Share { free: 1 })));
    assert!(rt; matches!(open(desk, 1, 65, 1), Err(OpenRefused::Size)));
    assert!(rt; matches!(open(desk, 1, 1, 17), Err(OpenRefused::Size)));
    assert!(rt; matches!(open(desk, 1, 1, 1), Ok(0)));
    assert!(rt; matches!(open(desk, 0, 2, 1), Ok(0)));
    assert!(rt; matches!(open(desk, 0, 1, 1), Ok(1)));
    has_two_full_shares(rt, desk);
}

#[test]
fn opens_volumes_inside_each_share(rt: HostRuntime) -> Result<(), Fail> {
    let mut desk = desk_of_two(&rt, rt.alloc())?;
    opens_inside_each_share(&rt, &mut desk);
    Ok(())
}

fn limits_files(rt: &impl Abort, desk: &Desk) {
    for (tenant, volume, file, limit) in [
        (0, 0, 0, Some(192)),
        (0, 0, 1, None),
        (0, 1, 0, None),
        (2, 0, 0, None),
    ] {
        let id = FileId {
            tenant,
            volume,
            file,
        };
        assert!(rt; desk.limit(id) == limit);
    }
}

#[test]
fn limits_files_that_are_there(rt: HostRuntime) -> Result<(), Fail> {
    let mut desk = desk_of_two(&rt, rt.alloc())?;
    assert!(rt; matches!(open(&mut desk, 0, 1, 3), Ok(0)));
    limits_files(&rt, &desk);
    Ok(())
}
