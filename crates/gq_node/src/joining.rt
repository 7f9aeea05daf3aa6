//! How a new node gets the files that it lacks, and what others do for it.

ghost use Rattle.std.specs.Prelude.{◌≡◌, ℕ, ◌+◌, ◌-◌, ◌*◌, ◌<◌, ◌≤◌, ◌&&◌, true, false, length, nat_lt, is_some, find, Some, None, IfOk, OnOk, IfSome, IsSome, option_map, ◌++◌};
ghost use Rattle.std.specs.List.{count_by};
ghost use Rattle.gq_grid.specs.declared.TheConstants.{MOST_SERVERS};
ghost use Rattle.gq_tag.specs.declared.TheConstants.{MOST_FILES};
ghost use Rattle.gq_tag.specs.Tag.{File, file_place};
ghost use Rattle.gq_grid.specs.Sets.{servers};
ghost use Rattle.gq_desk.specs.Volumes.{account_at, limit_of};
ghost use Rattle.gq_desk.specs.declared.limits.TheConstants.{MOST_VOLUMES};
ghost use Rattle.gq_replace.specs.Plans.{place_of};
ghost use Rattle.gq_node.specs.Joining.{is_peer, hears_joined, all_joined, tells_joined, awaited, lacked_files, below_in_column, next_peer, files_in_volume, first_among, first_in_lane, peer_for, asks_peer, looks, gives, takes};
ghost use Rattle.gq_desk.specs.CheckedPlan.{row_at};
ghost use Rattle.gq_node.specs.Lanes.{lacks_of_lane};
ghost use Rattle.gq_node.specs.Local.{new_local, silently, given, file_fits};
ghost use Rattle.gq_node.specs.Opening.{lost_local, Loses, Reserves, Bereaves};
ghost use Rattle.gq_node.specs.Sites.{site_of, is_new, has_node, nodes_from};
ghost use Rattle.gq_node.specs.Tables.{Acts, Agrees, Leads, LeadsAll, is_new_node, lacks_at, peer_at, has_joined};
ghost use Rattle.gq_node.specs.Deciding.{joins_it, gives_it, takes_it, nodes_of_turn};
ghost use Rattle.gq_model.specs.Trace.{files_of};
ghost use Rattle.gq_tag.specs.declared.Body.{Body};
ghost use Rattle.gq_node.specs.declared.lost.TheConstants.{MOST_TIMES};

use crate::lacks::Lacks;
use crate::letters::copy_fits;
use crate::lost::MOST_TIMES;
use crate::output::{Fact, Output, Transfer};
use crate::tables::{Core, place_of};
use gq_grid::{Grid, MOST_SERVERS};
use gq_memory::{GrowVec, OutOfMemory};
use gq_phase::are_peers;
use gq_replace::NUMBERS_OF_A_LOSS;
use gq_tag::{FileId, StoredCopy};

// The place below that one in its column, and above all others behind the last.
fn below_in_column(grid: &Grid, place: usize) -> usize
    requires { place < grid.now.rows * grid.now.cols }
    ensures place { result ≡ below_in_column grid.now place }
    ensures within { result < grid.now.rows * grid.now.cols }
{
    let servers = grid.servers();
    let below = place + grid.cols();
    if below < servers {
        below
    } else {
        below - servers
    }
}

impl Core {
    // Whether another node was lost at this one's place before.
    pub(crate) fn is_new(&self) -> bool
        ensures { (t : ℕ) → result ≡ is_new (site_of self.now.plan self.now.here t) }
    {
        self.node as usize >= MOST_SERVERS
    }

    // Whether the plan has the node.
    pub(crate) fn has_node(&self, node: u16) -> bool
        ensures has { (t : ℕ) → result ≡ has_node (site_of self.now.plan self.now.here t) node }
        ensures within { result ≡ true → place_of node < self.now.plan.grid.rows * self.now.plan.grid.cols }
    {
        let place = usize::from(place_of(node));
        place < self.plan.grid().servers() && self.lost.node_at(place) == node
    }

    // Whether the node is told that this one's plan has it, and so many losses or more.
    pub(crate) fn tells_joined(&self, from: u16, losses: u32) -> bool
        ensures { (t : ℕ) → result ≡ tells_joined from losses (site_of self.now.plan self.now.here t) }
    {
        self.has_node(from) && losses as usize <= self.lost.places().len()
    }

    // Whether it is a node of the plan and of this one's column.
    fn is_peer(&self, node: u16) -> bool
        ensures peer { (t : ℕ) → result ≡ is_peer (site_of self.now.plan self.now.here t) node }
        ensures within { result ≡ true → place_of node < self.now.plan.grid.rows * self.now.plan.grid.cols }
    {
        self.has_node(node)
            && are_peers(
                self.plan.grid(),
                usize::from(self.server()),
                usize::from(place_of(node)),
            )
    }

    // Whether this is a new node, and that one of its plan and tells of as many losses.
    fn hears(&self, from: u16, losses: u32) -> bool
        ensures hears { (t : ℕ) → result ≡ joins_it self.now from losses t }
        ensures within { result ≡ true → place_of from < MOST_SERVERS }
    {
        if !self.is_new() {
            return false;
        }
        if !self.has_node(from) {
            return false;
        }
        losses as usize == self.lost.places().len()
    }

    // That node tells that its plan has this one, and so many losses.
    pub(crate) fn join(&mut self, from: u16, losses: u32)
        ensures leads { LeadsAll self.old (hears_joined from losses) self.new }
    {
        if self.hears(from, losses) {
            self.joined.insert(usize::from(place_of(from)));
        }
    }

    // Whether the node at the place has joined, or is this one.
    fn has_joined(&self, place: usize) -> bool
        requires { place < MOST_SERVERS }
        ensures { result ≡ has_joined self.now place }
    {
        place == usize::from(self.server()) || self.joined.has(place)
    }

    // Whether all other nodes have joined.
    pub(crate) fn all_joined(&self) -> bool
        ensures { (t : ℕ) → result ≡ all_joined (site_of self.now.plan self.now.here t) (servers self.now.joined) }
    {
        for place in 0..self.plan.grid().servers() {
            if !self.has_joined(place) {
                return false;
            }
        }
        true
    }

    // The nodes that have not joined, this one left out, in rising order.
    pub(crate) fn awaited(&self) -> Result<Vec<u16>, OutOfMemory>
        ensures { IfOk result (λ nodes. (t : ℕ) → nodes.items ≡ awaited (site_of self.now.plan self.now.here t) (servers self.now.joined)) }
    {
        let mut awaited = Vec::new(self.alloc);
        let nodes = self.nodes_from(0)?;
        for node in nodes.as_slice() {
            if !self.has_joined(usize::from(place_of(*node))) {
                awaited.grow(*node)?;
            }
        }
        Ok(awaited)
    }

    // Whether the file is there.
    pub(crate) fn is_there(&self, file: FileId) -> bool
        requires { file.tenant < length self.now.plan.rows }
        ensures there { result ≡ is_some (limit_of self.now.desk file) }
        ensures few { result ≡ true → file.file < MOST_FILES }
    {
        let count = self.desk.volumes(file.tenant).len();
        (file.volume as usize) < count && file.file < self.files(file.tenant, file.volume)
    }

    // Whether the server lacks the file.
    pub(crate) fn lacks(&self, file: FileId) -> bool
        requires { file.tenant < length self.now.plan.rows }
        ensures { result ≡ lacks_at self.now file.tenant (file_place file) }
    {
        self.lacks[usize::from(file.tenant)].lacks(file.volume, file.file)
    }

    // The first file of the volume that the server lacks.
    fn first_in(&self, tenant: u8, volume: u32) -> Option<FileId>
        requires tenant { tenant < length self.now.plan.rows }
        requires volume { volume < length (account_at self.now.desk tenant).volumes }
        ensures first { option_map file_place result ≡ find (lacks_at self.now tenant) (files_in_volume volume (files_of (account_at self.now.desk tenant).volumes volume)) }
        ensures tenant { IfSome result (λ file. file.tenant ≡ tenant) }
    {
        let first = self.lacks[usize::from(tenant)].next(volume);
        for place in first..self.files(tenant, volume) {
            let file = FileId {
                tenant,
                volume,
                file: place,
            };
            if self.lacks(file) {
                return Some(file);
            }
        }
        None
    }

    // The first file of the tenant that the server lacks.
    fn first_lacked(&self, tenant: u8) -> Option<FileId>
        requires { tenant < length self.now.plan.rows }
        ensures first { option_map file_place result ≡ first_among (lacks_at self.now tenant) (account_at self.now.desk tenant).volumes }
        ensures tenant { IfSome result (λ file. file.tenant ≡ tenant) }
    {
        let count = self.count_volumes(tenant);
        let first = self.lacks[usize::from(tenant)].first();
        for volume in first..count {
            if let Some(file) = self.first_in(tenant, volume as u32) {
                return Some(file);
            }
        }
        None
    }

    // The first file of the volume that the server lacks, if the volume's files have that lane.
    fn first_of(&self, tenant: u8, volume: u32, lane: u32) -> Option<FileId>
        requires tenant { tenant < length self.now.plan.rows }
        requires volume { volume < length (account_at self.now.desk tenant).volumes }
        ensures first { option_map file_place result ≡ find (lacks_of_lane (lacks_at self.now tenant) (account_at self.now.desk tenant).volumes lane) (files_in_volume volume (files_of (account_at self.now.desk tenant).volumes volume)) }
        ensures tenant { IfSome result (λ file. file.tenant ≡ tenant) }
    {
        if self.lane(tenant, volume) != lane {
            return None;
        }
        self.first_in(tenant, volume)
    }

    // The first file of the lane that the server lacks.
    fn first_in_lane(&self, tenant: u8, lane: u32) -> Option<FileId>
        requires { tenant < length self.now.plan.rows }
        ensures first { option_map file_place result ≡ first_in_lane (lacks_at self.now tenant) (account_at self.now.desk tenant).volumes lane }
        ensures tenant { IfSome result (λ file. file.tenant ≡ tenant) }
    {
        let count = self.count_volumes(tenant);
        let whole = self.lacks[usize::from(tenant)].first();
        for volume in whole..count {
            if let Some(file) = self.first_of(tenant, volume as u32, lane) {
                return Some(file);
            }
        }
        None
    }

    // How many files of the volume the server lacks.
    fn lacked_in(&self, tenant: u8, volume: u32) -> usize
        requires tenant { tenant < length self.now.plan.rows }
        requires volume { volume < length (account_at self.now.desk tenant).volumes }
        ensures lacked { result ≡ count_by (lacks_at self.now tenant) (files_in_volume volume (files_of (account_at self.now.desk tenant).volumes volume)) }
        ensures few { result ≤ MOST_FILES }
    {
        let mut lacked = 0;
        for place in 0..self.files(tenant, volume) {
            let file = FileId {
                tenant,
                volume,
                file: place,
            };
            if self.lacks(file) {
                lacked += 1;
            }
        }
        lacked
    }

    // The server of a node that stands in the place of no other lacks no file.
    fn is_whole(&self)
        ensures { is_new_node self.now ≡ false → (t : ℕ) (file : File) → lacks_at self.now t file ≡ false }
    {
        let _node = self.node;
    }

    // Whether the server lacks a file of the tenant.
    pub(crate) fn lacks_some(&self, tenant: u8) -> bool
        requires { tenant < length self.now.plan.rows }
        ensures { result ≡ nat_lt 0 (lacked_files (lacks_at self.now tenant) (account_at self.now.desk tenant).volumes) }
    {
        self.is_whole();
        if !self.is_new() {
            return false;
        }
        self.first_lacked(tenant).is_some()
    }

    // How many files of the tenant the server lacks.
    pub(crate) fn lacked(&self, tenant: u8) -> usize
        requires { tenant < length self.now.plan.rows }
        ensures lacked { result ≡ lacked_files (lacks_at self.now tenant) (account_at self.now.desk tenant).volumes }
        ensures few { result ≤ MOST_VOLUMES * MOST_FILES }
    {
        self.is_whole();
        if !self.is_new() {
            return 0;
        }
        let mut lacked = 0;
        for volume in 0..self.count_volumes(tenant) {
            lacked += self.lacked_in(tenant, volume as u32);
        }
        lacked
    }

    // The place behind that one in the node's column, its own left out.
    fn next_peer(&self, place: usize) -> usize
        requires { place < self.now.plan.grid.rows * self.now.plan.grid.cols }
        ensures next { (t : ℕ) → result ≡ next_peer (site_of self.now.plan self.now.here t) place }
        ensures within { result < self.now.plan.grid.rows * self.now.plan.grid.cols }
    {
        let own = usize::from(self.server());
        let next = below_in_column(self.plan.grid(), place);
        if next == own {
            below_in_column(self.plan.grid(), own)
        } else {
            next
        }
    }

    // Asks the node at that place for the first file of the lane that the server lacks.
    fn ask(&mut self, tenant: u8, lane: u32, place: usize) -> Output
        requires tenant { tenant < length self.old.plan.rows }
        requires place { place < self.old.plan.grid.rows * self.old.plan.grid.cols }
        ensures { Acts self.old tenant (λ site local. asks_peer site local lane place) result self.new }
    {
        let first = self.first_in_lane(tenant, lane);
        self.peers[usize::from(tenant)] = place as u8;
        let Some(file) = first else {
            return Output::nothing(self.alloc);
        };
        let to = self.lost.node_at(place);
        Output::sent(self.alloc, Transfer::Wants { to, file })
    }

    // The place whose node is asked at a tick for a file of the lane.
    fn peer_for(&self, tenant: u8, lane: u32) -> usize
        requires { tenant < length self.now.plan.rows }
        ensures peer { (t : ℕ) → result ≡ peer_for (site_of self.now.plan self.now.here t) lane (peer_at self.now tenant) }
        ensures within { result < self.now.plan.grid.rows * self.now.plan.grid.cols }
    {
        let last = usize::from(self.peers[usize::from(tenant)]);
        if lane == 0 {
            self.next_peer(last)
        } else {
            last
        }
    }

    // A tick, behind those of the sessions.
    pub(crate) fn look(&mut self, tenant: u8, lane: u32) -> Output
        requires { tenant < length self.old.plan.rows }
        ensures { Acts self.old tenant (looks lane) result self.new }
    {
        if !self.all_joined() {
            return Output::nothing(self.alloc);
        }
        let place = self.peer_for(tenant, lane);
        self.ask(tenant, lane, place)
    }

    // Whether this node gives that one its copy of the file.
    fn gives(&self, from: u16, file: FileId) -> bool
        requires { file.tenant < length self.now.plan.rows }
        ensures gives { result ≡ gives_it self.now from file }
        ensures there { result ≡ true → is_some (limit_of self.now.desk file) ≡ true }
    {
        if !self.is_peer(from) {
            return false;
        }
        if !self.is_there(file) {
            return false;
        }
        !self.lacks(file)
    }

    // That node asks for this one's copy of the file.
    pub(crate) fn give(&self, from: u16, file: FileId) -> Result<Output, OutOfMemory>
        requires { file.tenant < length self.now.plan.rows }
        ensures acts { IfOk result (λ out. Acts self.now file.tenant (gives from (file_place file)) out self.now) }
    {
        if !self.gives(from, file) {
            return Ok(Output::nothing(self.alloc));
        }
        let copy = self.copy_of(file)?;
        let to = from;
        Ok(Output::sent(self.alloc, Transfer::Brings { to, file, copy }))
    }

    // The server was given the copy of the file.
    pub(crate) fn has_now(&mut self, file: FileId, copy: &StoredCopy)
        requires tenant { file.tenant < length self.old.plan.rows }
        requires there { IsSome (limit_of self.old.desk file) }
        requires few { file.file < MOST_FILES }
        requires fits { file_fits (limit_of self.old.desk file) (Body.Store copy.now) ≡ true }
        ensures leads { Leads self.old file.tenant (λ site local. silently (given (file_place file) copy.now local)) self.new }
        ensures desk { self.new.desk ≡ self.old.desk }
    {
        let _put = self.store.put(file, copy.tag, copy.bytes.as_slice());
        self.lacks[usize::from(file.tenant)].give(file.volume, file.file);
    }

    // Whether this node takes that one's copy of the file.
    fn takes(&self, from: u16, file: FileId, copy: &StoredCopy) -> bool
        requires { file.tenant < length self.now.plan.rows }
        ensures takes { result ≡ takes_it self.now from file copy.now }
        ensures there { result ≡ true → is_some (limit_of self.now.desk file) ≡ true }
        ensures few { result ≡ true → file.file < MOST_FILES }
        ensures peer { result ≡ true → place_of from < self.now.plan.grid.rows * self.now.plan.grid.cols }
    {
        if !self.is_peer(from) {
            return false;
        }
        if !self.lacks(file) {
            return false;
        }
        if !self.is_there(file) {
            return false;
        }
        match self.desk.limit(file) {
            Some(limit) => copy_fits(limit, copy),
            None => false,
        }
    }

    // That node gives its own copy of the file.
    pub(crate) fn take(&mut self, from: u16, file: FileId, copy: StoredCopy) -> Output
        requires { file.tenant < length self.old.plan.rows }
        ensures { Acts self.old file.tenant (takes from (file_place file) copy) result self.new }
    {
        if !self.takes(from, file, &copy) {
            return Output::nothing(self.alloc);
        }
        let lane = self.lane(file.tenant, file.volume);
        self.has_now(file, &copy);
        let asked = self.ask(file.tenant, lane, usize::from(place_of(from)));
        Output {
            answer: None,
            letters: Vec::new(self.alloc),
            transfer: asked.transfer,
            fact: Some(Fact::Had { file, copy }),
        }
    }

    // The first volumes of the tenant, so many, were lost with the node that stood here before, where this is a new one.
    fn lose(&mut self, tenant: u8, volumes: usize) -> Result<(), OutOfMemory>
        requires tenant { tenant < length self.old.plan.rows }
        requires few { volumes ≤ MOST_VOLUMES }
        requires first { Agrees self.old tenant (new_local self.old.plan.grid (place_of self.old.here.node) (account_at self.old.desk tenant).volumes) }
        ensures loses { OnOk result (Loses self.old tenant volumes self.new) }
    {
        if !self.is_new() {
            return Ok(());
        }
        let rows = self.desk.volumes(tenant);
        self.lacks[usize::from(tenant)] = Lacks::all(self.alloc, volumes, rows)?;
        Ok(())
    }

    // The numbers of tags up to this one are reserved for the session at that place of the tenant's, if its home is this node.
    fn reserve_at(&mut self, tenant: u8, place: usize, number: u64)
        requires tenant { tenant < length self.old.plan.rows }
        requires place { place < (row_at self.old.plan tenant).sessions }
        ensures { Reserves self.old tenant place number self.new }
    {
        let _node = self.node;
        let session = self.session_at(tenant, place);
        if !self.is_home(tenant, session) {
            return;
        }
        let _fits = self.recall(&Fact::Numbered {
            tenant,
            session,
            number,
        });
    }

    // Where this is a new node, the tags of the tenant's sessions whose home it is begin where a plan of so many losses says.
    fn reserve_all(&mut self, tenant: u8, losses: u16)
        requires tenant { tenant < length self.old.plan.rows }
        requires new { is_new_node self.old ≡ true }
        ensures { (lost : ℕ) → Agrees self.old tenant (lost_local self.old tenant lost) → Bereaves self.old tenant (record { volumes = lost; losses = losses }) self.new }
    {
        let number = u64::from(losses) * NUMBERS_OF_A_LOSS;
        let sessions = self.plan.row(tenant).sessions;
        for place in 0..sessions {
            self.reserve_at(tenant, place as usize, number);
        }
    }

    // The first volumes of the tenant, so many, were lost with the node that stood here before, where this is a new one; and its sessions
    // begin where a plan of so many losses says.
    pub(crate) fn lack(
        &mut self,
        tenant: u8,
        volumes: usize,
        losses: u16,
    ) -> Result<(), OutOfMemory>
        requires tenant { tenant < length self.old.plan.rows }
        requires few { volumes ≤ MOST_VOLUMES }
        requires first { Agrees self.old tenant (new_local self.old.plan.grid (place_of self.old.here.node) (account_at self.old.desk tenant).volumes) }
        ensures begins { OnOk result (Bereaves self.old tenant (record { volumes = volumes; losses = losses }) self.new) }
    {
        if !self.is_new() {
            return Ok(());
        }
        self.lose(tenant, volumes)?;
        self.reserve_all(tenant, losses);
        Ok(())
    }

    // Appends the nodes of the plan before which so many were lost at their place.
    fn put_nodes(&self, turn: u8, nodes: &mut Vec<u16>) -> Result<(), OutOfMemory>
        ensures { OnOk result (nodes.new.items ≡ nodes.old.items ++ nodes_of_turn self.now turn) }
    {
        for place in 0..self.plan.grid().servers() {
            if self.lost.times(place) == turn {
                nodes.grow(self.lost.node_at(place))?;
            }
        }
        Ok(())
    }

    // The nodes of the plan before which so many were lost at their place, or more, in rising order.
    pub(crate) fn nodes_from(&self, first: u8) -> Result<Vec<u16>, OutOfMemory>
        requires { first ≤ MOST_TIMES }
        ensures { IfOk result (λ nodes. (t : ℕ) → nodes.items ≡ nodes_from (site_of self.now.plan self.now.here t) first) }
    {
        let mut nodes = Vec::new(self.alloc);
        for turn in first..MOST_TIMES + 1 {
            self.put_nodes(turn, &mut nodes)?;
        }
        Ok(nodes)
    }
}
