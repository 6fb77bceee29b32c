ghost use Rattle.std.specs.Prelude.{◌≡◌, ◌-◌, ◌<◌, OnOk};

use crate::problems::Problem;
use std::marker::Model;
use txn::NoMemory;

/// What a search may still look at. Contracts see how many nodes that are.
#[derive(Drop)]
pub struct Nodes<'a> {
    pub(crate) left: u64,
    /// What is searched, since it tells whether the search was given up.
    pub(crate) problem: &'a Problem,
}

impl<'a> Model for Nodes<'a> {
    ghost use Rattle.std.specs.Prelude.{ℕ};

    ghost Value = { ℕ };

    ghost view = { λ n. n.left };
}

impl<'a> Nodes<'a> {
    pub fn left(&self) -> u64
        ensures { result ≡ self.now }
    {
        self.left
    }

    /// Leaves none.
    pub fn use_up(&mut self)
        ensures { self.new ≡ 0 }
    {
        self.left = 0;
    }

    /// Takes one, unless the search was given up.
    pub fn take(&mut self) -> Result<(), NoMemory>
        requires { 0 < self.old }
        ensures { OnOk result (self.new ≡ self.old - 1) }
    {
        self.problem.go_on()?;
        self.left -= 1;
        Ok(())
    }
}
