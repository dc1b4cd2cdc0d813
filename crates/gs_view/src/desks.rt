ghost use Rattle.std.specs.Prelude.{◌≡◌, ◌+◌, ◌<◌, ◌≤◌, ◌^◌, [], ◌∷◌, ◌++◌, MatchResult, IfOk, IfSome, Some, drop};
ghost use Rattle.left_right.specs.Sides.{view as known_at};
ghost use Rattle.gs_view.specs.Lists.{last_place};
ghost use Rattle.gs_view.specs.Telling.{Shows};

use crate::Snap;
use crate::handles::{Handle, Inner};
use crate::rules::{Enters, Known, Published, Tells};
use crate::shown::Shown;
use left_right::writer::Writer;
use std::alloc::{AllocError, Global};
use std::marker::Model;
use std::sync::Wait;

type Out = Writer<Shown, Shown, Known, Published>;

/// What publishes. Contracts see it as the snaps after the first that it published.
pub struct Desk {
    out: Out,
}

impl Model for Desk {
    ghost use Rattle.std.specs.Prelude.{◌≡◌, List, [], drop};
    ghost use Rattle.left_right.specs.Sides.{view as known_at};
    ghost use Rattle.gs_view.specs.Telling.{Shows};
    ghost use Rattle.gs_view.specs.declared.snaps.Snap.{Snap};

    ghost Value = { List Snap };

    ghost view = { λ desk. known_at desk.out.desk.place };

    ghost invariant = { λ desk. Shows desk.out.desk.shown.value (known_at desk.out.desk.place)
        × (drop desk.out.behind desk.out.log.items ≡ []) };
}

impl Desk {
    /// A desk that has published nothing, with room for `handles` handles.
    pub fn new(alloc: Global, handles: usize) -> Result<Desk, AllocError>
        requires { (0 < handles) × (handles < 2 ^ 32) }
        ensures { IfOk result (λ desk. desk ≡ []) }
    {
        let nothing = Shown {
            count: 0,
            last: None,
        };
        let out: Out = Writer::new(alloc, nothing, nothing, handles)?;
        Ok(Desk { out })
    }

    /// A handle that knows nothing yet, where there is a place for it.
    pub fn handle(&self) -> Option<Handle>
        ensures { IfSome result (λ handle. handle ≡ []) }
    {
        match self.out.factory().reader() {
            Ok(inner) => Some(Handle { inner }),
            Err(_) => None,
        }
    }

    /// A handle that knows all that is published, where there is a place for it.
    pub fn informed_handle(&mut self) -> Option<Handle>
        ensures same { self.new ≡ self.old }
        ensures informed { IfSome result (λ handle. handle ≡ self.old) }
    {
        match self.out.factory().reader() {
            Ok(inner) => Some(Handle {
                inner: told(&mut self.out, inner),
            }),
            Err(_) => None,
        }
    }

    /// What is shown.
    pub fn shown(&self) -> Shown
        ensures { Shows result self.now }
    {
        *self.out.published()
    }

    /// Publishes a snap, and gives a handle that knows it.
    pub fn publish<R: Wait>(self, rt: &R, snap: Snap) -> (Desk, Result<Handle, AllocError>)
        requires { last_place 0 self ≤ snap.place }
        ensures { MatchResult result.1
            (λ handle. (result.0 ≡ self ++ snap ∷ []) × (handle ≡ result.0))
            (λ _. result.0 ≡ self) }
    {
        let Desk { mut out } = self;
        let Some(count) = out.published().count.checked_add(1) else {
            return (Desk { out }, Err(AllocError));
        };
        if out.factory().reader().is_err() {
            return (Desk { out }, Err(AllocError));
        }
        let next = Shown {
            count,
            last: Some(snap),
        };
        if out.append(next).is_err() {
            return (Desk { out }, Err(AllocError));
        }
        let mut out = show(rt, out, snap);
        let inner = seated(rt, &out);
        let inner = told(&mut out, inner);
        (Desk { out }, Ok(Handle { inner }))
    }

    /// Waits for the readers, and lets both copies go.
    pub fn end<R: Wait>(self, rt: &R) {
        let Desk { out } = self;
        out.take(rt);
    }
}

/// Shows the one snap that is pending.
fn show<R: Wait>(rt: &R, out: Out, snap: Snap) -> Out
    requires shown { Shows out.desk.shown.value (known_at out.desk.place) }
    requires pending { drop out.behind out.log.items ≡ record { count = out.desk.shown.value.count + 1; last = Some snap } ∷ [] }
    requires place { last_place 0 (known_at out.desk.place) ≤ snap.place }
    ensures shown { Shows result.desk.shown.value (known_at result.desk.place) }
    ensures known { known_at result.desk.place ≡ known_at out.desk.place ++ snap ∷ [] }
    ensures pending { drop result.behind result.log.items ≡ [] }
{
    let (out, _always) = out.publish_as::<Enters, R>(rt);
    out
}

/// Tells a new reader what the publisher knows.
fn told(out: &mut Out, inner: Inner) -> Inner
    requires table { inner.place.table_id ≡ out.old.desk.place.table_id }
    requires new { known_at inner.place ≡ [] }
    ensures same { (out.new.desk.shown ≡ out.old.desk.shown)
        × (out.new.log ≡ out.old.log)
        × (out.new.behind ≡ out.old.behind)
        × (known_at out.new.desk.place ≡ known_at out.old.desk.place) }
    ensures told { known_at result.place ≡ known_at out.old.desk.place }
{
    let mut inner = inner;
    inner.learn::<Tells>(out.tell::<Tells>());
    inner
}

/// A reader at a place of the desk. There was one when `publish` looked, and only `publish` takes places.
fn seated<R: Wait>(rt: &R, out: &Out) -> Inner
    ensures table { result.place.table_id ≡ out.now.desk.place.table_id }
    ensures known { known_at result.place ≡ [] }
{
    for _ in rt.forever() {
        if let Ok(inner) = out.factory().reader() {
            return inner;
        }
    }
    unreachable!()
}
