// The rows of a scene as they were read: a list for each field, filled from the front. A text has at most 65,536 bytes,
// and a component takes 34 of them at least, a connection 24: so the lists have room for every text. There is no heap, so how
// many entries are in use stands beside the lists. The two kinds are lent as lists of their own fields, by name: one generic
// struct would need a trait over the fields, longer than both.
ghost use Rattle.std.specs.Prelude.{◌≡◌, ◌<◌, [], ◌∷◌, ◌++◌, length};
ghost use Rattle.rules.specs.Lent.{components_lent, connections_lent};
ghost use Rattle.rules.specs.Report.{component_fields, connection_fields};
ghost use Rattle.reader.specs.Readings.{component_of, connection_of};

use reader::rows::{ComponentRow, ConnectionRow};
use rules::lent::{Components, Connections};
use rules::limits::MAX_TEXT;
use std::marker::Model;

pub(crate) const COMPONENT_ROOM: usize = MAX_TEXT / 34;

pub(crate) const CONNECTION_ROOM: usize = MAX_TEXT / 24;

#[derive(Drop)]
pub(crate) struct ComponentRows {
    len: usize,
    ids: [u64; COMPONENT_ROOM],
    kinds: [u8; COMPONENT_ROOM],
    delays: [u16; COMPONENT_ROOM],
    locked: [u8; COMPONENT_ROOM],
    xs: [i32; COMPONENT_ROOM],
    ys: [i32; COMPONENT_ROOM],
    zs: [i32; COMPONENT_ROOM],
}

impl Model for ComponentRows {
    ghost use Rattle.std.specs.Prelude.{◌≤◌, List};
    ghost use Rattle.rules.specs.Scene.{Component, components_of};

    ghost Value = { List Component };

    ghost use Rattle.text.specs.Rows.{component_fronts};

    ghost view = { λ s. components_of (component_fronts s) };

    ghost invariant = { λ s. s.len ≤ 1927 };
}

impl ComponentRows {
    #[tactic(auto, unfolding(rules::specs::Scene::components_of, rules::specs::Lists::indices, rules::specs::Lists::from))]
    pub(crate) fn new() -> Self
        ensures { result ≡ [] }
    {
        ComponentRows {
            len: 0,
            ids: [0; COMPONENT_ROOM],
            kinds: [0; COMPONENT_ROOM],
            delays: [0; COMPONENT_ROOM],
            locked: [0; COMPONENT_ROOM],
            xs: [0; COMPONENT_ROOM],
            ys: [0; COMPONENT_ROOM],
            zs: [0; COMPONENT_ROOM],
        }
    }

    #[tactic(auto, using(crate::proofs::RowSteps::components_counted))]
    pub(crate) fn push(&mut self, row: ComponentRow)
        requires { length self.old < 1927 }
        ensures { self.new ≡ self.old ++ component_of row ∷ [] }
    {
        let i = self.len;
        self.ids[i] = row.id;
        self.kinds[i] = row.kind;
        self.delays[i] = row.delay;
        self.locked[i] = row.locked;
        self.xs[i] = row.x;
        self.ys[i] = row.y;
        self.zs[i] = row.z;
        self.len += 1;
    }

    // The rows as a call is lent them.
    pub(crate) fn lent(&self) -> Components<'_>
        ensures { components_lent result ≡ component_fields self.now }
    {
        let n = self.len;
        Components {
            ids: &self.ids[..n],
            kinds: &self.kinds[..n],
            delays: &self.delays[..n],
            locked: &self.locked[..n],
            xs: &self.xs[..n],
            ys: &self.ys[..n],
            zs: &self.zs[..n],
        }
    }
}

#[derive(Drop)]
pub(crate) struct ConnectionRows {
    len: usize,
    sources: [u64; CONNECTION_ROOM],
    sinks: [u64; CONNECTION_ROOM],
    transfers: [u8; CONNECTION_ROOM],
}

impl Model for ConnectionRows {
    ghost use Rattle.std.specs.Prelude.{◌≤◌, List};
    ghost use Rattle.rules.specs.Scene.{Connection, connections_of};

    ghost Value = { List Connection };

    ghost use Rattle.text.specs.Rows.{connection_fronts};

    ghost view = { λ s. connections_of (connection_fronts s) };

    ghost invariant = { λ s. s.len ≤ 2730 };
}

impl ConnectionRows {
    #[tactic(auto, unfolding(rules::specs::Scene::connections_of, rules::specs::Lists::indices, rules::specs::Lists::from))]
    pub(crate) fn new() -> Self
        ensures { result ≡ [] }
    {
        ConnectionRows {
            len: 0,
            sources: [0; CONNECTION_ROOM],
            sinks: [0; CONNECTION_ROOM],
            transfers: [0; CONNECTION_ROOM],
        }
    }

    #[tactic(auto, using(crate::proofs::RowSteps::connections_counted))]
    pub(crate) fn push(&mut self, row: ConnectionRow)
        requires { length self.old < 2730 }
        ensures { self.new ≡ self.old ++ connection_of row ∷ [] }
    {
        let i = self.len;
        self.sources[i] = row.source;
        self.sinks[i] = row.sink;
        self.transfers[i] = row.transfer;
        self.len += 1;
    }

    // The rows as a call is lent them.
    pub(crate) fn lent(&self) -> Connections<'_>
        ensures { connections_lent result ≡ connection_fields self.now }
    {
        let n = self.len;
        Connections {
            sources: &self.sources[..n],
            sinks: &self.sinks[..n],
            transfers: &self.transfers[..n],
        }
    }
}
