//! A script as far as it is made.

ghost use Rattle.std.specs.Prelude.{◌≡◌, ◌+◌, ◌<◌, ◌^◌, ◌++◌, ◌∷◌, [], IfOk, OnOk};
ghost use Rattle.script_gen.specs.Generator.{sends_on};
ghost use Rattle.script_gen.specs.Tallies.{tally_behind, tally_of};

use exchange_text::action::Action;
use exchange_text::script::Script;
use spec_model::Memory;
use spec_model::list::List;
use std::alloc::Global;
use std::marker::Model;

/// How a connection stands: how many messages are sent on it, and whether its last action is a send.
#[derive(Clone, Copy, Debug, PartialEq, Eq)]
pub struct Tally {
    pub sends: u32,
    pub ends_in_send: bool,
}

/// A script as far as it is made, and how each of its connections stands. Contracts see the script.
#[derive(Drop)]
pub struct Draft {
    script: Script,
    tallies: List<Tally>,
}

impl Model for Draft {
    ghost use Rattle.exchange_text.specs.declared.script.Script.{Script};
    ghost use Rattle.script_gen.specs.Tallies.{AreTallies};

    ghost Value = { Script };

    ghost view = { λ draft. draft.script };

    ghost invariant = { λ draft. AreTallies draft.script.conns draft.script.actions draft.tallies };
}

impl Draft {
    /// The script of so many connections on which nothing is to be done.
    pub fn new(alloc: Global, conns: u16) -> Result<Draft, Memory>
        ensures { IfOk result (λ draft. draft ≡ record { conns = conns; actions = [] }) }
    {
        let none = Tally {
            sends: 0,
            ends_in_send: false,
        };
        let tallies = vec![in alloc; none; usize::from(conns)]?;
        let actions = List::new(alloc);
        Ok(Draft {
            script: Script { conns, actions },
            tallies: List::from_vec(tallies),
        })
    }

    /// How a connection stands.
    pub fn tally(&self, conn: u16) -> Tally
        requires { conn < self.now.conns }
        ensures { result ≡ tally_of self.now.actions conn }
    {
        self.tallies.as_slice()[usize::from(conn)]
    }

    /// Puts an action of a connection at the end.
    pub fn put(&mut self, conn: u16, action: Action) -> Result<(), Memory>
        requires there { conn < self.old.conns }
        requires countable { sends_on conn self.old.actions + 1 < 2 ^ 32 }
        ensures { OnOk result (self.new ≡ record self.old { actions = self.old.actions ++ (conn, action) ∷ [] }) }
    {
        let tally = self.tally(conn).behind(&action);
        self.script.actions.push((conn, action))?;
        self.tallies.set(usize::from(conn), tally);
        Ok(())
    }

    /// The script. It takes no memory.
    pub fn into_script(self) -> Script
        ensures { result ≡ self }
    {
        let Draft { script, .. } = self;
        script
    }
}

impl Tally {
    /// How the connection stands behind one action more.
    fn behind(self, action: &Action) -> Tally
        requires { self.sends + 1 < 2 ^ 32 }
        ensures { result ≡ tally_behind self action.now }
    {
        match action {
            Action::Send(_) => Tally {
                sends: self.sends + 1,
                ends_in_send: true,
            },
            Action::Await(_) => Tally {
                sends: self.sends,
                ends_in_send: false,
            },
        }
    }
}
