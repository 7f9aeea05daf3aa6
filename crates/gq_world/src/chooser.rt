//! The servers that are up, and the quorum that is chosen among them.

ghost use Rattle.std.specs.Prelude.{◌≡◌, ◌<◌, IfSome, option_map};
ghost use Rattle.gq_grid.specs.Grid.{all_servers, with_server, without_server, choose, choice_servers};
ghost use Rattle.gq_grid.specs.Sets.{servers, shown_choice};
ghost use Rattle.gq_grid.specs.declared.TheConstants.{MOST_SERVERS};

use gq_grid::{Choice, Grid, ServerSet};
use std::marker::Model;

// The servers of a grid that are up. The quorum is chosen when a server changes, and not when it is asked for.
#[derive(Drop)]
pub struct Chooser {
    grid: Grid,
    up: ServerSet,
    choice: Option<Choice>,
}

impl Model for Chooser {
    ghost use Rattle.gq_world.specs.Running.{Running, IsChoice};

    ghost Value = { Running };

    ghost view = { λ c. record { grid = c.grid; up = c.up } };

    ghost invariant = { λ c. IsChoice c.grid c.up c.choice };
}

impl Chooser {
    // All servers of the grid are up.
    pub fn new(grid: Grid) -> Chooser
        ensures grid { result.grid ≡ grid }
        ensures up { servers result.up ≡ all_servers grid }
    {
        let up = ServerSet::all(&grid);
        Chooser {
            grid,
            up,
            choice: grid.choose(up),
        }
    }

    // The chosen quorum, if there is one.
    pub fn choice(&self) -> Option<Choice>
        ensures choice { option_map shown_choice result ≡ choose self.now.grid (servers self.now.up) }
        ensures servers { IfSome result (λ c. servers c.servers ≡ choice_servers self.now.grid (shown_choice c)) }
    {
        self.choice
    }

    // The servers that are up.
    pub fn servers(&self) -> ServerSet
        ensures { result ≡ self.now.up }
    {
        self.up
    }

    // Whether the server is up.
    pub fn has(&self, server: usize) -> bool
        requires { server < MOST_SERVERS }
        ensures { result ≡ servers self.now.up server }
    {
        self.up.has(server)
    }

    // The server comes back.
    pub fn insert(&mut self, server: usize)
        requires { server < MOST_SERVERS }
        ensures grid { self.new.grid ≡ self.old.grid }
        ensures up { servers self.new.up ≡ with_server server (servers self.old.up) }
    {
        self.up.insert(server);
        self.choice = self.grid.choose(self.up);
    }

    // The server goes down.
    pub fn remove(&mut self, server: usize)
        requires { server < MOST_SERVERS }
        ensures grid { self.new.grid ≡ self.old.grid }
        ensures up { servers self.new.up ≡ without_server server (servers self.old.up) }
    {
        self.up.remove(server);
        self.choice = self.grid.choose(self.up);
    }
}
